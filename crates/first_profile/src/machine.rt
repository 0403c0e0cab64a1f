//! The numbers of a run: those of indices and scalars, and the static blocks of each array.

ghost use Rattle.std.specs.Prelude.{◌≡◌, ◌<◌, List, [], map, length, slice_index_or, slice_set};
ghost use Rattle.first_profile.specs.Running.{Numbers};

use std::marker::Model;

/// The numbers that a run changes.
#[derive(Drop)]
pub struct Machine {
    values: Vec<u32>,
    scalars: Vec<u64>,
    statics: Vec<Vec<Vec<u64>>>,
}

impl Model for Machine {
    ghost Value = { Numbers };

    ghost view = { λ m. record {
      values = m.values.items;
      scalars = m.scalars.items;
      statics = map (λ a. map (λ b. b.items) a.items) m.statics.items;
    } };
}

impl Machine {
    /// The numbers of indices, scalars and blocks.
    pub fn new(values: Vec<u32>, scalars: Vec<u64>, statics: Vec<Vec<Vec<u64>>>) -> Machine
        ensures { result ≡ record {
          values = values.items;
          scalars = scalars.items;
          statics = map (λ a. map (λ b. b.items) a.items) statics.items;
        } }
    {
        Machine {
            values,
            scalars,
            statics,
        }
    }

    /// The number of a scalar.
    pub fn scalar(&self, scalar: u16) -> u64
        requires { scalar < length self.now.scalars }
        ensures { result ≡ slice_index_or self.now.scalars scalar 0 }
    {
        self.scalars[scalar as usize]
    }

    /// Gives a scalar a number.
    pub fn set_scalar(&mut self, scalar: u16, number: u64)
        requires { scalar < length self.old.scalars }
        ensures { self.new ≡ record self.old { scalars = slice_set self.old.scalars scalar number } }
    {
        self.scalars[scalar as usize] = number;
    }

    /// The number that an index has.
    pub fn value(&self, index: u16) -> u32
        requires { index < length self.now.values }
        ensures { result ≡ slice_index_or self.now.values index 0 }
    {
        self.values[index as usize]
    }

    /// Gives an index a number.
    pub fn set_value(&mut self, index: u16, number: u32)
        requires { index < length self.old.values }
        ensures { self.new ≡ record self.old { values = slice_set self.old.values index number } }
    {
        self.values[index as usize] = number;
    }

    /// The elements of a block.
    pub fn block(&self, array: u16, number: usize) -> &[u64]
        requires array { array < length self.now.statics }
        requires number { number < length (slice_index_or self.now.statics array []) }
        ensures { result.now ≡ slice_index_or (slice_index_or self.now.statics array []) number [] }
    {
        let blocks = &self.statics[array as usize];
        blocks[number].as_slice()
    }

    /// Gives a block other elements.
    pub fn set_block(&mut self, array: u16, number: usize, words: Vec<u64>)
        requires array { array < length self.old.statics }
        requires number { number < length (slice_index_or self.old.statics array []) }
        ensures { self.new ≡ record self.old {
          statics = slice_set self.old.statics array
              (slice_set (slice_index_or self.old.statics array []) number words.items);
        } }
    {
        let blocks = &mut self.statics[array as usize];
        blocks[number] = words;
    }
}
