//! What workers, owners of blocks and the master send each other.

use sial_syntax::{Access, Class};

/// Where a put comes from: its pardo, the number of its iteration, and how many puts this iteration posted before.
#[derive(Clone, Copy)]
pub struct Origin {
    pub instance: u64,
    pub iteration: u32,
    pub ordinal: u64,
}

/// What the master answers a worker that asks for iterations.
#[derive(Clone, Copy)]
pub enum Given {
    /// So many numbers of the box from the first on.
    Chunk { first: u32, count: u64 },
    /// No number is left.
    NoneLeft,
}

/// What a message says. The elements of a Reply and of a Put lie in the pools.
#[derive(Clone, Copy)]
pub enum Body {
    Request {
        class: Class,
        block: u32,
        epoch: u64,
        line: u32,
    },
    Reply {
        class: Class,
        block: u32,
    },
    Put {
        class: Class,
        block: u32,
        epoch: u64,
        line: u32,
        how: Access,
        put: u32,
        origin: Origin,
    },
    Ack {
        put: u32,
    },
    Ask {
        instance: u64,
        place: u32,
    },
    Give {
        given: Given,
    },
    Arrive {
        sync: u64,
        place: u32,
    },
    Release {
        sync: u64,
    },
    Contribute {
        sync: u64,
        place: u32,
        value: u64,
    },
    Total {
        sync: u64,
        sum: u64,
    },
}

/// A message between two actors: workers go by their numbers, server v is 64 + v, the master is 255.
#[derive(Clone, Copy)]
pub struct Message {
    pub from: u8,
    pub to: u8,
    pub body: Body,
}
