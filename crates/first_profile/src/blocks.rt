//! Statements on blocks and scalars.

ghost use Rattle.std.specs.Prelude.{◌≡◌, ◌+◌, ◌-◌, ◌<◌, ◌≤◌, length, replicate, slice_index_or, OnOk};
ghost use Rattle.block_math.specs.Elements.{sums, dot_of};
ghost use Rattle.sial_meaning.specs.Number.{plus};
ghost use Rattle.sip_setting.specs.Seen.{setting_of};
ghost use Rattle.first_profile.specs.Fits.{IsHeld};
ghost use Rattle.first_profile.specs.Running.{only_index, number_in, words_of, with_words, with_scalar, scalar_in};

use crate::machine::Machine;
use sial_syntax::BlockRef;
use sip_setting::Granted;
use std::alloc::{AllocError, Global};

// The number of a block within its array.
fn number_of(granted: &Granted, machine: &Machine, block: &BlockRef) -> usize
    requires held { IsHeld (setting_of granted.now) machine.now block.now }
    ensures { result ≡ number_in (setting_of granted.now) machine.now block.now }
{
    let index = block.at.as_slice()[0];
    let (first, _) = granted.spaces.range(index);
    (machine.value(index) - first) as usize
}

// The elements of a block.
fn words<'a>(granted: &Granted, machine: &'a Machine, block: &BlockRef) -> &'a [u64]
    requires held { IsHeld (setting_of granted.now) machine.now block.now }
    ensures { result.now ≡ words_of (setting_of granted.now) machine.now block.now }
{
    machine.block(block.array, number_of(granted, machine, block))
}

/// `a(x) = N`
pub fn fill(
    alloc: Global,
    granted: &Granted,
    machine: &mut Machine,
    block: &BlockRef,
    number: u64,
) -> Result<(), AllocError>
    requires held { IsHeld (setting_of granted.now) machine.old block.now }
    ensures { OnOk result (machine.new ≡ with_words (setting_of granted.now) block.now
        (replicate (length (words_of (setting_of granted.now) machine.old block.now)) number) machine.old) }
{
    let count = words(granted, machine, block).len();
    let filled = vec![in alloc; number; count]?;
    let at = number_of(granted, machine, block);
    machine.set_block(block.array, at, filled);
    Ok(())
}

/// `a(x) += b(x)`
pub fn add(
    alloc: Global,
    granted: &Granted,
    machine: &mut Machine,
    block: &BlockRef,
    other: &BlockRef,
) -> Result<(), AllocError>
    requires held { IsHeld (setting_of granted.now) machine.old block.now }
    requires other { IsHeld (setting_of granted.now) machine.old other.now }
    requires len { length (words_of (setting_of granted.now) machine.old block.now)
        ≡ length (words_of (setting_of granted.now) machine.old other.now) }
    ensures { OnOk result (machine.new ≡ with_words (setting_of granted.now) block.now
        (sums (words_of (setting_of granted.now) machine.old block.now)
        (words_of (setting_of granted.now) machine.old other.now)) machine.old) }
{
    let mut summed = Vec::from_slice(alloc, words(granted, machine, block))?;
    block_math::add(summed.as_mut_slice(), words(granted, machine, other));
    let at = number_of(granted, machine, block);
    machine.set_block(block.array, at, summed);
    Ok(())
}

/// `s = a(x) * b(x)`
pub fn contract(
    granted: &Granted,
    machine: &mut Machine,
    scalar: u16,
    left: &BlockRef,
    right: &BlockRef,
)
    requires scalar { scalar < length machine.old.scalars }
    requires left { IsHeld (setting_of granted.now) machine.old left.now }
    requires right { IsHeld (setting_of granted.now) machine.old right.now }
    requires len { length (words_of (setting_of granted.now) machine.old left.now)
        ≡ length (words_of (setting_of granted.now) machine.old right.now) }
    ensures { machine.new ≡ with_scalar scalar
        (dot_of (words_of (setting_of granted.now) machine.old left.now)
        (words_of (setting_of granted.now) machine.old right.now)) machine.old }
{
    let product = block_math::dot(
        words(granted, machine, left),
        words(granted, machine, right),
    );
    machine.set_scalar(scalar, product);
}

/// `s += N`
pub fn increase(machine: &mut Machine, scalar: u16, number: u64)
    requires { scalar < length machine.old.scalars }
    ensures { machine.new ≡ with_scalar scalar (plus (scalar_in machine.old scalar) number) machine.old }
{
    let sum = machine.scalar(scalar).wrapping_add(number);
    machine.set_scalar(scalar, sum);
}
