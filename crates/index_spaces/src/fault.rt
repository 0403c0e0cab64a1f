//! What an input is refused for.

ghost use Rattle.std.specs.Prelude.{◌≡◌, Some};
ghost use Rattle.index_spaces.specs.Found.{at_line, fault_of, seen_at};
ghost use Rattle.index_spaces.specs.Refusing as spec;
ghost use Rattle.index_spaces.specs.Refusing.{IsCause, IsNoMemory, number_of};

use sial_syntax::Text;
use std::alloc::Global;

/// What doesn't fit, in the order in which it is told on one line.
#[derive(Clone, Copy, Debug, PartialEq, Eq)]
pub enum SpaceKind {
    /// A bound names a constant that the input doesn't give.
    NoConstant,
    /// A range's segments aren't there, or a subindex's pieces.
    NoSegment,
    /// An index doesn't lie within the declared one.
    NotWithin,
    /// A block has too many numbers.
    BlockTooWide,
    /// An array, the arrays of a kind, or a pardo's box have too many blocks.
    TooManyBlocks,
    /// A start value has no place.
    BadStart,
    /// No memory was found.
    OutOfMemory,
}

/// Why an input doesn't fit a program, with the name of what is refused, and a number, a count or a line.
#[derive(Drop)]
pub struct SpaceFault {
    pub kind: SpaceKind,
    pub name: Text,
    pub value: u64,
}

/// A refusal that has its name from the program or the input.
#[derive(Clone, Copy)]
pub struct Refusal<'a> {
    pub kind: SpaceKind,
    pub name: &'a [u8],
    pub value: u64,
}

/// A refusal with the line by which it is told.
#[derive(Clone, Copy)]
pub struct Found<'a> {
    pub line: u32,
    pub refusal: Refusal<'a>,
}

impl Refusal<'_> {
    /// The fault, with a name of its own.
    pub fn told(&self, alloc: Global) -> SpaceFault
        ensures { IsCause (Some (fault_of self.now)) result }
    {
        match Text::from_slice(alloc, self.name) {
            Ok(name) => SpaceFault {
                kind: self.kind,
                name,
                value: self.value,
            },
            Err(_) => no_memory(alloc),
        }
    }
}

/// Want of memory.
pub fn no_memory(alloc: Global) -> SpaceFault
    ensures { IsNoMemory result }
{
    SpaceFault {
        kind: SpaceKind::OutOfMemory,
        name: Text::from_vec(Vec::new(alloc)),
        value: 0,
    }
}

// The number of a kind, by which refusals of one line are told.
fn number(kind: SpaceKind) -> u8
    ensures { result ≡ number_of kind }
{
    match kind {
        SpaceKind::NoConstant => 1,
        SpaceKind::NoSegment => 2,
        SpaceKind::NotWithin => 3,
        SpaceKind::BlockTooWide => 4,
        SpaceKind::TooManyBlocks => 5,
        SpaceKind::BadStart => 6,
        SpaceKind::OutOfMemory => 7,
    }
}

// Whether a refusal comes before another.
fn comes_before(found: &Found, other: &Found) -> bool
    ensures { result ≡ spec.comes_before (at_line found.now) (at_line other.now) }
{
    found.line < other.line
        || (found.line == other.line && number(found.refusal.kind) < number(other.refusal.kind))
}

/// The one of two that comes first, and of two that are alike the former.
pub fn sooner<'a>(first: Option<Found<'a>>, second: Option<Found<'a>>) -> Option<Found<'a>>
    ensures { seen_at result ≡ spec.sooner (seen_at first.entry) (seen_at second.entry) }
{
    match (first, second) {
        (None, other) => other,
        (Some(found), None) => Some(found),
        (Some(found), Some(other)) if comes_before(&other, &found) => Some(other),
        (Some(found), Some(_)) => Some(found),
    }
}
