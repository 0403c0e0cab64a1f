//! Right sides, their operands read from left to right.

ghost use Rattle.std.specs.Prelude.{◌≡◌, ℕ, List, ◌++◌, take, length};
ghost use Rattle.sip_setting.specs.Seen.{setting_of};
ghost use Rattle.sial_syntax.specs.declared.operand.Operand.TheVariants as operands;
ghost use Rattle.sial_syntax.specs.declared.operand.Right.TheVariants as rights;
ghost use Rattle.sial_meaning.specs.LocalStep as spec;
ghost use Rattle.sial_meaning.specs.Setting.{Setting};
ghost use Rattle.sial_meaning.specs.Own.{Own};
ghost use Rattle.exec_blocks.specs.Standing.{AreIn, IsNamed};
ghost use Rattle.exec_sides.specs.Seen.{side_of, term_of};
ghost use Rattle.exec_assign.specs.Answers.{answer_of};
ghost use Rattle.exec_assign.specs.Lent.{AreLent, OperandLent, operand_values, side_values, slot_of};
ghost use Rattle.exec_assign.specs.Naming.{AreNamed, BlockLies, OperandLies, OperandNamed, SideLies};
ghost use Rattle.exec_assign.specs.Standing.{OfStates};

use crate::elements::elements;
use crate::extents::Extents;
use crate::leases::Leases;
use block_pool::{Cached, Pool};
use exec_blocks::Blocks;
use exec_job::Job;
use exec_names::Extent;
use exec_scalars::Scalars;
use exec_sides::{Seen, Shape, Side, Term};
use sial_meaning::TrapKind;
use sial_syntax::{Bin, BlockRef, Operand, Right};

/// A right side, read: its blocks where they stand, its traps from left to right.
pub fn read_side<'a>(
    job: &Job,
    pool: &'a Pool,
    scalars: &Scalars,
    blocks: &Blocks,
    values: &[u32],
    right: &'a Right,
    leases: &Leases<'_>,
    extents: &'a Extents,
) -> Result<Side<'a>, TrapKind>
    requires seated { AreIn (setting_of job.now) pool.now blocks.now }
    requires named { AreNamed (setting_of job.now) values.now right.now }
    requires lent { AreLent (setting_of job.now) pool.now values.now leases.now right.now }
    requires lie { SideLies (setting_of job.now).spaces values.now extents.now right.now }
    ensures { OfStates (setting_of job.now) pool.now scalars.now blocks.now values.now (λ own partials.
        spec.side_read (setting_of job.now) own right.now (side_values (setting_of job.now) pool.now values.now leases.now right.now)
        ≡ answer_of side_of result) }
{
    match right {
        Right::One(a) => {
            match read_term(
                job,
                pool,
                scalars,
                blocks,
                values,
                a,
                leases.first,
                &extents.first,
            ) {
                Ok(term) => Ok(Side::Alone(term)),
                Err(kind) => Err(kind),
            }
        }
        Right::Two(a, bin, b) => read_two(
            job, pool, scalars, blocks, values, a, *bin, b, leases, extents,
        ),
    }
}

// Two operands, the first one first.
fn read_two<'a>(
    job: &Job,
    pool: &'a Pool,
    scalars: &Scalars,
    blocks: &Blocks,
    values: &[u32],
    a: &'a Operand,
    bin: Bin,
    b: &'a Operand,
    leases: &Leases<'_>,
    extents: &'a Extents,
) -> Result<Side<'a>, TrapKind>
    requires seated { AreIn (setting_of job.now) pool.now blocks.now }
    requires named { AreNamed (setting_of job.now) values.now (rights.Two a.now bin b.now) }
    requires lent { AreLent (setting_of job.now) pool.now values.now leases.now (rights.Two a.now bin b.now) }
    requires lie { SideLies (setting_of job.now).spaces values.now extents.now (rights.Two a.now bin b.now) }
    ensures { OfStates (setting_of job.now) pool.now scalars.now blocks.now values.now (λ own partials.
        spec.side_read (setting_of job.now) own (rights.Two a.now bin b.now)
        (side_values (setting_of job.now) pool.now values.now leases.now (rights.Two a.now bin b.now))
        ≡ answer_of side_of result) }
{
    match read_term(
        job,
        pool,
        scalars,
        blocks,
        values,
        a,
        leases.first,
        &extents.first,
    ) {
        Ok(first) => match read_term(
            job,
            pool,
            scalars,
            blocks,
            values,
            b,
            leases.second,
            &extents.second,
        ) {
            Ok(second) => Ok(Side::Joined(first, bin, second)),
            Err(kind) => Err(kind),
        },
        Err(kind) => Err(kind),
    }
}

// An operand; whatever values come behind its own.
fn read_term<'a>(
    job: &Job,
    pool: &'a Pool,
    scalars: &Scalars,
    blocks: &Blocks,
    values: &[u32],
    operand: &'a Operand,
    lease: Option<&Cached>,
    extents: &'a [Extent; 6],
) -> Result<Term<'a>, TrapKind>
    requires seated { AreIn (setting_of job.now) pool.now blocks.now }
    requires named { OperandNamed (setting_of job.now) values.now operand.now }
    requires lent { OperandLent (setting_of job.now) pool.now values.now (slot_of lease) operand.now }
    requires lie { OperandLies (setting_of job.now).spaces values.now extents.now operand.now }
    ensures { (more : List (List ℕ)) → OfStates (setting_of job.now) pool.now scalars.now blocks.now values.now (λ own partials.
        spec.term_of (setting_of job.now) own operand.now
        (operand_values (setting_of job.now) pool.now values.now (slot_of lease.entry) operand.now ++ more)
        ≡ answer_of term_of result) }
{
    match operand {
        Operand::Number(number) => Ok(Term::Number(*number)),
        Operand::Scalar(scalar) => read_scalar(scalars, *scalar),
        Operand::Block(block) => read_block(
            job, pool, scalars, blocks, values, block, lease, extents,
        ),
    }
}

// The number of a scalar.
fn read_scalar<'a>(scalars: &Scalars, scalar: u16) -> Result<Term<'a>, TrapKind>
    ensures { (g : Setting) (own : Own) (all : List (List ℕ)) → own.scalars ≡ scalars.now.scalars
        → spec.term_of g own (operands.Scalar scalar) all ≡ answer_of term_of result }
{
    match scalars.get(scalar) {
        Some(number) => Ok(Term::Number(number)),
        None => Err(TrapKind::UnsetScalar),
    }
}

// A block, where its elements stand.
fn read_block<'a>(
    job: &Job,
    pool: &'a Pool,
    scalars: &Scalars,
    blocks: &Blocks,
    values: &[u32],
    block: &'a BlockRef,
    lease: Option<&Cached>,
    extents: &'a [Extent; 6],
) -> Result<Term<'a>, TrapKind>
    requires seated { AreIn (setting_of job.now) pool.now blocks.now }
    requires named { IsNamed (setting_of job.now) values.now block.now }
    requires lent { OperandLent (setting_of job.now) pool.now values.now (slot_of lease) (operands.Block block.now) }
    requires lie { BlockLies (setting_of job.now).spaces values.now extents.now block.now }
    ensures { (more : List (List ℕ)) → OfStates (setting_of job.now) pool.now scalars.now blocks.now values.now (λ own partials.
        spec.term_of (setting_of job.now) own (operands.Block block.now)
        (operand_values (setting_of job.now) pool.now values.now (slot_of lease.entry) (operands.Block block.now) ++ more)
        ≡ answer_of term_of result) }
{
    let at = block.at.as_slice();
    let _spaces = job.spaces();
    let extents = &extents[..at.len()];
    match elements(job, pool, blocks, values, block, lease, extents) {
        Ok(words) => Ok(Term::Block(Seen {
            shape: Shape { at, extents },
            words,
        })),
        Err(kind) => Err(kind),
    }
}
