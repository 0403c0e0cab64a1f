//! Statements and their bodies.

use crate::access::Access;
use crate::condition::Cond;
use crate::operand::{BlockRef, Op, Right, Slot, Target};
use crate::text::Text;

/// A statement with the text line of its first token, counted from 1.
#[derive(PartialEq, Drop)]
#[cycle(tree)]
pub struct Stmt {
    pub line: u32,
    pub form: Form,
}

/// What a statement says; numbers are those of indices, arrays, scalars and procedures.
#[derive(PartialEq, Drop)]
#[cycle(tree)]
pub enum Form {
    /// `do i`
    Do {
        index: u16,
        body: Vec<Stmt>,
    },
    /// `do ii in i`
    DoIn {
        sub: u16,
        index: u16,
        body: Vec<Stmt>,
    },
    Pardo {
        indices: Vec<u16>,
        wheres: Vec<Cond>,
        body: Vec<Stmt>,
    },
    If {
        cond: Cond,
        then_body: Vec<Stmt>,
        else_body: Option<Vec<Stmt>>,
    },
    Call {
        proc: u16,
    },
    Assign {
        target: Target,
        op: Op,
        right: Right,
    },
    Get {
        block: BlockRef,
    },
    Request {
        block: BlockRef,
    },
    /// `how` is Store for `=`, Add for `+=` and Max for `max=`.
    Put {
        block: BlockRef,
        how: Access,
        from: BlockRef,
    },
    /// `how` as for `put`.
    Prepare {
        block: BlockRef,
        how: Access,
        from: BlockRef,
    },
    Create {
        array: u16,
    },
    Delete {
        array: u16,
    },
    Allocate {
        array: u16,
        at: Vec<Slot>,
    },
    Deallocate {
        array: u16,
        at: Vec<Slot>,
    },
    Collective {
        into: u16,
        from: u16,
    },
    SipBarrier,
    ServerBarrier,
    Print {
        text: Text,
    },
    PrintScalar {
        scalar: u16,
    },
    /// `execute compute_integrals`
    Integrals {
        block: BlockRef,
    },
}
