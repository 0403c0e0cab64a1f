//! Instructions of the flat code.

use crate::indices::Indices;
use crate::slots::Slots;
use sial_syntax::{Access, BlockRef, Cond, Op, Right, Target};

/// What one instruction does; `past`, `back` and the like are numbers of instructions.
#[derive(Drop)]
pub enum Operation {
    /// The end of the program.
    Stop,
    /// The end of a procedure.
    Return,
    /// The head of `do i`; without a first segment it goes on past the loop.
    Do {
        index: u16,
        past: u32,
    },
    /// The head of `do ii in i`; without a first piece it goes on past the loop.
    DoIn {
        sub: u16,
        index: u16,
        past: u32,
    },
    /// The end of a loop, with its head.
    EndDo {
        head: u32,
    },
    /// A test, with what follows where it fails.
    If {
        cond: Cond,
        otherwise: u32,
    },
    /// The end of the branch that was taken, with what follows the other one.
    Else {
        past: u32,
    },
    EndIf,
    /// The head of a pardo, with its end, where tuples are taken up.
    Pardo {
        indices: Indices,
        end: u32,
    },
    Where {
        cond: Cond,
    },
    /// The end of a pardo, with its head.
    EndPardo {
        head: u32,
    },
    /// A procedure, with its first instruction.
    Call {
        procedure: u16,
        entry: u32,
    },
    Assign {
        target: Target,
        op: Op,
        right: Right,
    },
    Get {
        block: BlockRef,
    },
    Request {
        block: BlockRef,
    },
    /// `how` is Store for `=`, Add for `+=` and Max for `max=`.
    Put {
        block: BlockRef,
        how: Access,
        from: BlockRef,
    },
    /// `how` as for `put`.
    Prepare {
        block: BlockRef,
        how: Access,
        from: BlockRef,
    },
    Create {
        array: u16,
    },
    Delete {
        array: u16,
    },
    Allocate {
        array: u16,
        at: Slots,
    },
    Deallocate {
        array: u16,
        at: Slots,
    },
    Collective {
        into: u16,
        from: u16,
    },
    SipBarrier,
    ServerBarrier,
    /// A text by its number.
    Print {
        text: u32,
    },
    PrintScalar {
        scalar: u16,
    },
    Integrals {
        block: BlockRef,
    },
}

/// An operation and the text line of its statement, counted from 1, or 0 at the end of the program and of a procedure.
#[derive(Drop)]
pub struct Instruction {
    pub line: u32,
    pub operation: Operation,
}
