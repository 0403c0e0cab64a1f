//! What an instruction has before its operands, behind its operation.

ghost use Rattle.std.specs.Prelude.{◌≡◌, ◌/◌, ◌%◌};
ghost use Rattle.table_file.specs.Fields.{Gives};
ghost use Rattle.table_file.specs.Heads as spec;

use crate::fault::TableFault;
use crate::fields::{byte, field, number_4, unused};
use sial_syntax::{Access, Bin, Op, Test};

fn test_of(number: u8) -> Option<Test>
    ensures { result ≡ spec.test_of number }
{
    match number {
        1 => Some(Test::Less),
        2 => Some(Test::LessEqual),
        3 => Some(Test::Greater),
        4 => Some(Test::GreaterEqual),
        5 => Some(Test::Equal),
        6 => Some(Test::NotEqual),
        _ => None,
    }
}

fn op_of(number: u8) -> Option<Op>
    ensures { result ≡ spec.op_of number }
{
    match number {
        1 => Some(Op::Set),
        2 => Some(Op::Add),
        3 => Some(Op::Subtract),
        4 => Some(Op::Scale),
        _ => None,
    }
}

fn bin_of(number: u8) -> Option<Option<Bin>>
    ensures { result ≡ spec.bin_of number }
{
    match number {
        0 => Some(None),
        1 => Some(Some(Bin::Plus)),
        2 => Some(Some(Bin::Minus)),
        3 => Some(Some(Bin::Times)),
        4 => Some(Some(Bin::Outer)),
        _ => None,
    }
}

fn how_of(version: u16, number: u8) -> Option<Access>
    ensures { result ≡ spec.how_of version number }
{
    match number {
        1 => Some(Access::Store),
        2 => Some(Access::Add),
        3 => {
            if version == 2 {
                return Some(Access::Max);
            }
            None
        }
        _ => None,
    }
}

/// A line and a jump, behind two bytes that nothing uses.
#[tactic(auto, unfolding(crate::specs::Heads::line_and_jump))]
pub fn line_and_jump(bytes: &[u8], at: usize) -> Result<((u32, u32), usize), TableFault>
    ensures { Gives (λ x. x) result (spec.line_and_jump bytes.now at) }
{
    let front = unused(2, bytes, at)?;
    let (line, next) = number_4(bytes, front)?;
    let (jump, next) = number_4(bytes, next)?;
    Ok(((line, jump), next))
}

/// A line, behind two bytes that nothing uses, with no jump.
#[tactic(auto, unfolding(crate::specs::Heads::line_alone))]
pub fn line_alone(bytes: &[u8], at: usize) -> Result<(u32, usize), TableFault>
    ensures { Gives (λ x. x) result (spec.line_alone bytes.now at) }
{
    let front = unused(2, bytes, at)?;
    let (line, next) = number_4(bytes, front)?;
    let next = unused(4, bytes, next)?;
    Ok((line, next))
}

/// No mode, a line, no jump.
#[tactic(auto, unfolding(crate::specs::Heads::plain_head))]
pub fn plain_head(bytes: &[u8], at: usize) -> Result<(u32, usize), TableFault>
    ensures { Gives (λ x. x) result (spec.plain_head bytes.now at) }
{
    let front = unused(1, bytes, at)?;
    line_alone(bytes, front)
}

/// No mode, a line and a jump.
#[tactic(auto, unfolding(crate::specs::Heads::jump_head))]
pub fn jump_head(bytes: &[u8], at: usize) -> Result<((u32, u32), usize), TableFault>
    ensures { Gives (λ x. x) result (spec.jump_head bytes.now at) }
{
    let front = unused(1, bytes, at)?;
    line_and_jump(bytes, front)
}

/// The mode of a test.
#[tactic(auto, unfolding(crate::specs::Heads::test_mode))]
pub fn test_mode(bytes: &[u8], at: usize) -> Result<(Test, usize), TableFault>
    ensures { Gives (λ x. x) result (spec.test_mode bytes.now at) }
{
    let (number, next) = byte(bytes, at)?;
    match test_of(number) {
        Some(test) => Ok((test, next)),
        None => Err(field(at)),
    }
}

/// The mode of an assignment: how it combines, and what stands between its operands.
#[tactic(auto, unfolding(crate::specs::Heads::assign_mode))]
pub fn assign_mode(bytes: &[u8], at: usize) -> Result<((Op, Option<Bin>), usize), TableFault>
    ensures { Gives (λ x. x) result (spec.assign_mode bytes.now at) }
{
    let (number, next) = byte(bytes, at)?;
    let Some(op) = op_of(number / 16) else {
        return Err(field(at));
    };
    match bin_of(number % 16) {
        Some(bin) => Ok(((op, bin), next)),
        None => Err(field(at)),
    }
}

/// The mode of a block that is put.
#[tactic(auto, unfolding(crate::specs::Heads::put_mode))]
pub fn put_mode(version: u16, bytes: &[u8], at: usize) -> Result<(Access, usize), TableFault>
    ensures { Gives (λ x. x) result (spec.put_mode version bytes.now at) }
{
    let (number, next) = byte(bytes, at)?;
    match how_of(version, number) {
        Some(how) => Ok((how, next)),
        None => Err(field(at)),
    }
}
