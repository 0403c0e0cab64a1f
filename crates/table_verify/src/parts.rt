//! Whether the parts of statements are there: the arrays, indices, scalars and procedures that they name by number.

ghost use Rattle.std.specs.Prelude.{◌≡◌, IsTrue};
ghost use Rattle.std.specs.List.{flat_map, list_all};
ghost use Rattle.sial_syntax.specs.Parts.{condition_numbers, operand_number, operands, value_number};
ghost use Rattle.sial_syntax.specs.Proper as spec;
ghost use Rattle.sial_syntax.specs.Tree.{tree};

use sial_syntax::{Access, BlockRef, Cond, Operand, Program, Right, Slot, Target, Value};

/// Whether this is the number of a text line: each number that its type has is.
pub fn is_line(_line: u32) -> bool
    ensures { result ≡ spec.is_line _line }
{
    true
}

/// Whether this is a number: each that its type has is.
pub fn is_number(_number: u64) -> bool
    ensures { result ≡ spec.is_number _number }
{
    true
}

/// Whether a program has an index of this number.
pub fn has_index(program: &Program, index: u16) -> bool
    ensures { result ≡ spec.has_index (tree program.now) index }
{
    (index as usize) < program.indices.len()
}

/// Whether a program has all indices of these numbers.
pub fn has_indices(program: &Program, indices: &[u16]) -> bool
    ensures { result ≡ list_all (spec.has_index (tree program.now)) indices.now }
{
    indices.iter().all(|index| has_index(program, *index))
}

/// Whether a program has an array of this number.
pub fn has_array(program: &Program, array: u16) -> bool
    ensures { result ≡ spec.has_array (tree program.now) array }
{
    (array as usize) < program.arrays.len()
}

/// Whether a program has a scalar of this number.
pub fn has_scalar(program: &Program, scalar: u16) -> bool
    ensures { result ≡ spec.has_scalar (tree program.now) scalar }
{
    (scalar as usize) < program.scalars.len()
}

/// Whether a program has a procedure of this number.
pub fn has_procedure(program: &Program, procedure: u16) -> bool
    ensures { result ≡ spec.has_procedure (tree program.now) procedure }
{
    (procedure as usize) < program.procs.len()
}

/// Whether the array and the indices of a block are there.
pub fn has_block(program: &Program, block: &BlockRef) -> bool
    ensures { result ≡ spec.proper_block (tree program.now) block.now }
{
    has_array(program, block.array)
        && (1..=6).contains(&block.at.len())
        && has_indices(program, block.at.as_slice())
}

// Whether the parts of an operand are there.
fn has_operand(program: &Program, operand: &Operand) -> bool
    ensures value { result ≡ spec.proper_operand (tree program.now) operand.now }
    ensures numbers { IsTrue (list_all spec.is_number (operand_number operand.now)) }
{
    match operand {
        Operand::Number(number) => is_number(*number),
        Operand::Scalar(scalar) => has_scalar(program, *scalar),
        Operand::Block(block) => has_block(program, block),
    }
}

/// Whether the parts of a right side are there.
pub fn has_right(program: &Program, right: &Right) -> bool
    ensures value { result ≡ spec.proper_right (tree program.now) right.now }
    ensures numbers { IsTrue result → IsTrue (list_all spec.is_number (flat_map operand_number (operands right.now))) }
{
    match right {
        Right::One(first) => has_operand(program, first),
        Right::Two(first, _, second) => {
            has_operand(program, first) && has_operand(program, second)
        }
    }
}

/// Whether the parts of a target are there.
pub fn has_target(program: &Program, target: &Target) -> bool
    ensures { result ≡ spec.proper_target (tree program.now) target.now }
{
    match target {
        Target::Scalar(scalar) => has_scalar(program, *scalar),
        Target::Block(block) => has_block(program, block),
    }
}

// Whether the parts of a value are there.
fn has_value(program: &Program, value: Value) -> bool
    ensures value { result ≡ spec.proper_value (tree program.now) value }
    ensures numbers { IsTrue (list_all spec.is_number (value_number value)) }
{
    match value {
        Value::Number(number) => is_number(number),
        Value::Scalar(scalar) => has_scalar(program, scalar),
        Value::Index(index) => has_index(program, index),
    }
}

/// Whether the parts of a condition are there.
pub fn has_condition(program: &Program, condition: &Cond) -> bool
    ensures value { result ≡ spec.proper_cond (tree program.now) condition.now }
    ensures numbers { IsTrue result → IsTrue (list_all spec.is_number (condition_numbers condition.now)) }
{
    has_value(program, condition.left) && has_value(program, condition.right)
}

/// Whether the parts of all conditions are there.
pub fn has_conditions(program: &Program, conditions: &[Cond]) -> bool
    ensures value { result ≡ list_all (spec.proper_cond (tree program.now)) conditions.now }
    ensures numbers { IsTrue result → IsTrue (list_all spec.is_number (flat_map condition_numbers conditions.now)) }
{
    for condition in conditions {
        if !has_condition(program, condition) {
            return false;
        }
    }
    true
}

// Whether the index of a slot is there.
fn has_slot(program: &Program, slot: &Slot) -> bool
    ensures { result ≡ spec.proper_slot (tree program.now) slot.now }
{
    match slot {
        Slot::At(index) => has_index(program, *index),
        Slot::All => true,
    }
}

/// Whether the indices of slots are there.
pub fn has_slots(program: &Program, slots: &[Slot]) -> bool
    ensures { result ≡ list_all (spec.proper_slot (tree program.now)) slots.now }
{
    slots.iter().all(|slot| has_slot(program, slot))
}

/// Whether a block may be put so.
pub fn is_write(how: Access) -> bool
    ensures { result ≡ spec.is_write how }
{
    match how {
        Access::Read => false,
        Access::Add | Access::Max | Access::Store => true,
    }
}
