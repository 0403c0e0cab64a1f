//! The numbers of a run as it begins.

ghost use Rattle.std.specs.Prelude.{◌≡◌, ◌+◌, ◌<◌, ◌≤◌, All, map, replicate, length, IfOk, OnOk};
ghost use Rattle.index_spaces.specs.Starting.{given_of};
ghost use Rattle.sial_syntax.specs.Spaces.{first_of, count_of};
ghost use Rattle.sip_setting.specs.Given.{given};
ghost use Rattle.sip_setting.specs.Seen.{setting_of};
ghost use Rattle.first_profile.specs.Fits.{HasBlock};
ghost use Rattle.first_profile.specs.Ready.{IsFirstSetting};
ghost use Rattle.first_profile.specs.Running.{only_index, segment_len, start_numbers, with_all_given, zero_blocks, zero_numbers};

use crate::machine::Machine;
use index_spaces::StartBlock;
use sial_syntax::ArrayDecl;
use sip_setting::Granted;
use std::alloc::{AllocError, Global};

/// The numbers before the first statement: no index bound, the scalars and blocks that were given, and zeros in the other blocks.
pub fn start(alloc: Global, granted: &Granted) -> Result<Machine, AllocError>
    requires { IsFirstSetting (setting_of granted.now) }
    ensures { IfOk result (λ machine. machine ≡ start_numbers (setting_of granted.now)) }
{
    let mut machine = zeros(alloc, granted)?;
    set_given(alloc, granted.start.blocks.as_slice(), &mut machine)?;
    Ok(machine)
}

// The same with zeros in all blocks.
fn zeros(alloc: Global, granted: &Granted) -> Result<Machine, AllocError>
    requires { IsFirstSetting (setting_of granted.now) }
    ensures { IfOk result (λ machine. machine ≡ zero_numbers (setting_of granted.now)) }
{
    let values = vec![in alloc; 0u32; granted.program.indices.len()]?;
    let scalars = Vec::from_slice(alloc, granted.start.scalars.as_slice())?;
    let mut statics = Vec::new(alloc);
    for array in &granted.program.arrays {
        statics.push(zero_blocks(alloc, granted, array)?)?;
    }
    Ok(Machine::new(values, scalars, statics))
}

// Zeros for each segment of the index of an array.
fn zero_blocks(
    alloc: Global,
    granted: &Granted,
    array: &ArrayDecl,
) -> Result<Vec<Vec<u64>>, AllocError>
    requires setting { IsFirstSetting (setting_of granted.now) }
    requires some { 0 < length array.now.dims }
    requires within { only_index array.now.dims < length (setting_of granted.now).program.indices }
    ensures { IfOk result (λ blocks. map (λ b. b.items) blocks.items ≡ zero_blocks (setting_of granted.now) array.now) }
{
    let index = array.dims.as_slice()[0];
    let (first, count) = granted.spaces.range(index);
    let mut blocks = Vec::new(alloc);
    for turn in 0..count {
        blocks.push(zero_block(alloc, granted, index, first + turn)?)?;
    }
    Ok(blocks)
}

// Zeros for a segment of an index.
fn zero_block(
    alloc: Global,
    granted: &Granted,
    index: u16,
    number: u32,
) -> Result<Vec<u64>, AllocError>
    requires setting { IsFirstSetting (setting_of granted.now) }
    requires within { index < length (setting_of granted.now).program.indices }
    requires from { first_of (setting_of granted.now).spaces index ≤ number }
    requires below { number < first_of (setting_of granted.now).spaces index + count_of (setting_of granted.now).spaces index }
    ensures { IfOk result (λ words. words.items ≡ replicate (segment_len (setting_of granted.now) index number) 0) }
{
    let (_, len) = granted.spaces.segment(index, number);
    vec![in alloc; 0u64; len as usize]
}

// Sets the blocks that were given, the last first, so that of two that are one block the first stays.
fn set_given(alloc: Global, blocks: &[StartBlock], machine: &mut Machine) -> Result<(), AllocError>
    requires { All (HasBlock machine.old) (map given (map given_of blocks.now)) }
    ensures { OnOk result (machine.new ≡ with_all_given (map given (map given_of blocks.now)) machine.old) }
{
    for turn in 0..blocks.len() {
        let block = &blocks[blocks.len() - 1 - turn];
        let words = Vec::from_slice(alloc, block.words.as_slice())?;
        machine.set_block(block.array, block.number as usize, words);
    }
    Ok(())
}
