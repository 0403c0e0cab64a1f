//! Which slots are free, in a slab for each class.

ghost use Rattle.std.specs.Prelude.{◌≡◌, ◌+◌, ◌<◌, ◌++◌, ◌≤◌, [], false, length, replicate, slice_index, slice_set, sum, IfOk, OnOk};
ghost use Rattle.block_pool.specs.Memory.{class_count, state_at, is_free, free_slots};
ghost use Rattle.block_pool.specs.Surplus.{IsVacantBelow};

use crate::state::State;
use slab::Slab;
use std::alloc::{AllocError, Global};
use std::marker::Model;

/// The run of slots of one class; a key of its slab below the count is a slot of the run.
#[derive(Drop)]
pub(crate) struct Group {
    first: usize,
    count: u32,
    table: Slab<()>,
}

/// The class and the state of each slot.
#[derive(Drop)]
pub(crate) struct Slots {
    groups: Vec<Group>,
    classes: Vec<u32>,
    states: Vec<State>,
}

impl Model for Slots {
    ghost use Rattle.block_pool.specs.Occupied.{Occupied, IsTied};

    ghost Value = { Occupied };

    ghost view = { λ s. record { classes = s.classes.items; states = s.states.items } };

    ghost invariant = { λ s. IsTied s.groups.items s.classes.items s.states.items };
}

impl Slots {
    ghost use Rattle.block_pool.specs.Occupied.{with_state};
    ghost use Rattle.block_pool.specs.Opened.{classes_from};

    // So many slots of each class, all free.
    pub(crate) fn open(alloc: Global, counts: &[u32]) -> Result<Slots, AllocError>
        requires { length counts.now ≤ class_count }
        ensures classes { IfOk result (λ s. s.classes ≡ classes_from 0 counts.now) }
        ensures states { IfOk result (λ s. s.states ≡ replicate (length (classes_from 0 counts.now)) State.Free) }
    {
        let mut groups = Vec::with_capacity(alloc, counts.len())?;
        let mut classes = Vec::with_capacity(alloc, count_slots(counts))?;
        for at in 0..counts.len() {
            let group = new_group(alloc, classes.len(), counts[at])?;
            add_class(&mut classes, at as u32, group.count)?;
            groups.push(group)?;
        }
        let states = vec![in alloc; State::Free; classes.len()]?;
        Ok(Slots {
            groups,
            classes,
            states,
        })
    }

    // How many slots of a class are free: each vacant key of its slab is one.
    pub(crate) fn free(&self, class: u32) -> u32
        ensures { result ≡ free_slots class self.now.classes self.now.states }
    {
        match self.groups.get(class as usize) {
            Some(group) => (group.table.capacity() - group.table.len()) as u32,
            None => 0,
        }
    }

    // Takes a free slot of a class.
    pub(crate) fn take(&mut self, class: u32, state: State) -> usize
        requires free { 0 < free_slots class self.old.classes self.old.states }
        requires state { is_free state ≡ false }
        ensures was { state_at self.old.states result ≡ State.Free }
        ensures within { result < length self.old.classes }
        ensures class { slice_index self.old.classes result ≡ class }
        ensures after { self.new ≡ with_state self.old result state }
    {
        let group = &mut self.groups[class as usize];
        let slot = group.first + group.table.insert_reserved(());
        self.states[slot] = state;
        slot
    }

    // Frees a slot.
    pub(crate) fn give(&mut self, slot: usize)
        requires within { slot < length self.old.classes }
        requires taken { is_free (state_at self.old.states slot) ≡ false }
        ensures { self.new ≡ with_state self.old slot State.Free }
    {
        let group = &mut self.groups[self.classes[slot] as usize];
        let _ = group.table.try_remove(slot - group.first);
        self.states[slot] = State::Free;
    }

    // A slot that is not free has another state.
    pub(crate) fn set(&mut self, slot: usize, state: State)
        requires within { slot < length self.old.classes }
        requires taken { is_free (state_at self.old.states slot) ≡ false }
        requires state { is_free state ≡ false }
        ensures { self.new ≡ with_state self.old slot state }
    {
        self.states[slot] = state;
    }
}

// How many slots all classes have.
fn count_slots(counts: &[u32]) -> usize
    requires { length counts.now ≤ class_count }
    ensures { result ≡ sum counts.now }
{
    counts.iter().map(|count| *count as usize).sum()
}

// A run of so many slots, all free.
fn new_group(alloc: Global, first: usize, count: u32) -> Result<Group, AllocError>
    ensures first { IfOk result (λ g. g.first ≡ first) }
    ensures count { IfOk result (λ g. g.count ≡ count) }
    ensures vacant { IfOk result (λ g. IsVacantBelow g.table count) }
{
    // A slab may have room for more than it was asked for.
    let mut table = Slab::with_capacity(alloc, count as usize)?;
    if table.capacity() > count as usize {
        take_surplus(&mut table, count as usize);
    }
    Ok(Group {
        first,
        count,
        table,
    })
}

// Takes the surplus keys of a slab, those from a count on, for good.
fn take_surplus(table: &mut Slab<()>, count: usize)
    requires { count ≤ table.old.capacity }
    ensures { IsVacantBelow table.new count }
{
    take_all(table);
    for key in 0..count {
        let _ = table.try_remove(key);
    }
}

// Takes every key of a slab.
fn take_all(table: &mut Slab<()>)
    ensures taken { IsVacantBelow table.new 0 }
    ensures capacity { table.new.capacity ≡ table.old.capacity }
{
    while table.len() < table.capacity() {
        table.insert_reserved(());
    }
}

// So many slots of a class after the others.
fn add_class(classes: &mut Vec<u32>, class: u32, count: u32) -> Result<(), AllocError>
    ensures { OnOk result (classes.new.items ≡ classes.old.items ++ replicate count class) }
{
    for _ in 0..count {
        classes.push(class)?;
    }
    Ok(())
}
