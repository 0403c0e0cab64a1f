//! A list of messages whose room is taken at its opening.

ghost use Rattle.std.specs.Prelude.{◌≡◌, ◌<◌, [], Some, length, slice_get, IfOk};
ghost use Rattle.transfer_net.specs.InFlight.{none_of, with_posted, without};

use sip_files::OutOfMemory;
use std::alloc::Global;
use std::marker::Model;

/// Messages in flight, in order of posting. No call after `open` takes memory.
#[derive(Drop)]
pub struct Net<T> {
    items: Vec<T>,
    room: u32,
}

impl<T> Model for Net<T> {
    ghost use Rattle.std.specs.Prelude.{◌≡◌, ◌<◌, ◌^◌, vec_capacity};
    ghost use Rattle.transfer_net.specs.InFlight.{InFlight, in_flight_code};

    ghost Value = { InFlight T };

    ghost coded = { in_flight_code T.code };

    ghost view = { λ n. record { items = n.items.items; room = n.room } };

    ghost invariant = { λ n. (vec_capacity n.items ≡ n.room) × (n.room < 2 ^ 32) };
}

impl<T> Net<T> {
    /// Takes room for so many messages.
    pub fn open(alloc: Global, room: u32) -> Result<Net<T>, OutOfMemory>
        ensures { IfOk result (λ net. net ≡ none_of room) }
    {
        let items = Vec::with_capacity(alloc, room as usize)?;
        Ok(Net { items, room })
    }

    /// Adds a message at the end.
    pub fn post(&mut self, item: T)
        requires { length self.old.items < self.old.room }
        ensures { self.new ≡ with_posted self.old item }
    {
        self.items.push_reserved(item);
    }

    /// How many messages are in flight.
    pub fn len(&self) -> u32
        ensures { result ≡ length self.now.items }
    {
        self.items.len() as u32
    }

    /// The message at a place, counted from the oldest.
    pub fn at(&self, place: u32) -> &T
        requires { place < length self.now.items }
        ensures { slice_get self.now.items place ≡ Some result.now }
    {
        &self.items[place as usize]
    }

    /// Takes the message at a place out; the others keep their order.
    pub fn take(&mut self, place: u32) -> T
        requires { place < length self.old.items }
        ensures value { slice_get self.old.items place ≡ Some result }
        ensures rest { self.new ≡ without self.old place }
    {
        self.items.remove(place as usize)
    }

    /// Ends a net whose messages can't be dropped.
    pub fn close(self)
        requires { self.items ≡ [] }
    {
        let Net { items, room: _ } = self;
        items.destroy_empty();
    }
}
