//! Scalars of one worker.

ghost use Rattle.std.specs.Prelude.{◌≡◌, ◌≤◌, None, Some, IfOk, length, replicate, slice_index_or, slice_set};
ghost use Rattle.exec_scalars.specs.Numbers.{AreNumbers};
ghost use Rattle.sial_meaning.specs.Number.{combined};
ghost use Rattle.sial_meaning.specs.Own.{for_each, start_own, start_scalar, unset_if_private};
ghost use Rattle.sial_meaning.specs.Setting.{scalar_class};
ghost use Rattle.sial_meaning.specs.State.{start_state};
ghost use Rattle.sip_setting.specs.Seen.{setting_of};

use exec_job::Job;
use sial_syntax::ScalarClass;
use std::alloc::{AllocError, Global};
use std::marker::Model;

/// A worker's number of each scalar, where it is set, and of each partial scalar. No call after `open` takes memory.
#[derive(Drop)]
pub struct Scalars {
    numbers: Vec<Option<u64>>,
    partials: Vec<u64>,
}

impl Model for Scalars {
    ghost use Rattle.exec_scalars.specs.Numbers.{Numbers};
    ghost use Rattle.std.specs.Prelude.{◌≤◌, length};

    ghost Value = { Numbers };

    ghost view = { λ s. record { scalars = s.numbers.items; partials = s.partials.items } };

    ghost invariant = { λ s. length s.numbers.items ≤ 256 };
}

impl Scalars {
    /// As the program begins: replicated scalars have their start values, and partial ones nothing.
    pub fn open(alloc: Global, job: &Job) -> Result<Scalars, AllocError>
        ensures { IfOk result (λ s. AreNumbers s (start_own (setting_of job.now)) (start_state (setting_of job.now)).partials) }
    {
        let numbers = start_numbers(alloc, job)?;
        let partials = vec![in alloc; 0; job.scalars_len()]?;
        Ok(Scalars { numbers, partials })
    }

    /// The number of a scalar that isn't partial, where it is set.
    pub fn get(&self, scalar: u16) -> Option<u64>
        ensures { result ≡ slice_index_or self.now.scalars scalar None }
    {
        self.numbers.get(scalar as usize).copied().unwrap_or(None)
    }

    /// The number of a partial scalar.
    pub fn partial(&self, scalar: u16) -> u64
        ensures { result ≡ slice_index_or self.now.partials scalar 0 }
    {
        self.partials.get(scalar as usize).copied().unwrap_or(0)
    }

    /// Sets a scalar that isn't partial.
    pub fn set(&mut self, scalar: u16, number: u64)
        ensures { self.new ≡ record self.old { scalars = slice_set self.old.scalars scalar (Some number) } }
    {
        if let Some(place) = self.numbers.get_mut(scalar as usize) {
            *place = Some(number);
        }
    }

    /// Sets a partial scalar.
    pub fn set_partial(&mut self, scalar: u16, number: u64)
        ensures { self.new ≡ record self.old { partials = slice_set self.old.partials scalar number } }
    {
        if let Some(place) = self.partials.get_mut(scalar as usize) {
            *place = number;
        }
    }

    /// Unsets the private scalars.
    pub fn unset_private(&mut self, job: &Job)
        ensures scalars { self.new.scalars ≡ for_each (length self.old.scalars) (λ s. unset_if_private (scalar_class (setting_of job.now) s) (slice_index_or self.old.scalars s None)) }
        ensures partials { self.new.partials ≡ self.old.partials }
    {
        for scalar in 0..self.numbers.len() {
            self.numbers[scalar] = unless_private(job, scalar as u16, self.numbers[scalar]);
        }
    }
}

// A scalar's number, which a private one loses.
fn unless_private(job: &Job, scalar: u16, number: Option<u64>) -> Option<u64>
    ensures { result ≡ unset_if_private (scalar_class (setting_of job.now) scalar) number }
{
    match job.scalar_class(scalar) {
        ScalarClass::Private => None,
        ScalarClass::Replicated | ScalarClass::Partial => number,
    }
}

// The numbers with which scalars begin.
fn start_numbers(alloc: Global, job: &Job) -> Result<Vec<Option<u64>>, AllocError>
    ensures few { IfOk result (λ numbers. length numbers.items ≤ 256) }
    ensures start { IfOk result (λ numbers. numbers.items ≡ (start_own (setting_of job.now)).scalars) }
{
    let mut numbers = Vec::with_capacity(alloc, job.scalars_len())?;
    for scalar in 0..job.scalars_len() {
        numbers.push(start_number(job, scalar as u16))?;
    }
    Ok(numbers)
}

// The number with which a scalar begins.
fn start_number(job: &Job, scalar: u16) -> Option<u64>
    ensures { result ≡ start_scalar (scalar_class (setting_of job.now) scalar) (slice_index_or (setting_of job.now).numbers scalar 0) }
{
    match job.scalar_class(scalar) {
        ScalarClass::Replicated => Some(start_of(job.start_numbers(), scalar)),
        ScalarClass::Private | ScalarClass::Partial => None,
    }
}

// A start value, 0 where there is none.
fn start_of(numbers: &[u64], scalar: u16) -> u64
    ensures { result ≡ slice_index_or numbers.now scalar 0 }
{
    numbers.get(scalar as usize).copied().unwrap_or(0)
}
