//! The rules that one statement breaks.

ghost use Rattle.std.specs.Prelude.{◌≡◌};
ghost use Rattle.shape_check.specs.Breaks.{nothing, either, only_kind};
ghost use Rattle.shape_check.specs.Refused.{seen};
ghost use Rattle.shape_check.specs.Walk.{told};

use crate::fault::ShapeFault;

/// Which rules are broken.
#[derive(Clone, Copy)]
pub struct Broken {
    pub unbound: bool,
    pub rebound: bool,
    pub repeated: bool,
    pub kind: bool,
    pub indices: bool,
    pub writable: bool,
}

impl Broken {
    /// No rule.
    pub fn nothing() -> Broken
        ensures { result ≡ nothing }
    {
        Broken {
            unbound: false,
            rebound: false,
            repeated: false,
            kind: false,
            indices: false,
            writable: false,
        }
    }

    /// At most the rule on kinds.
    pub fn only_kind(kind: bool) -> Broken
        ensures { result ≡ only_kind kind }
    {
        Broken {
            unbound: false,
            rebound: false,
            repeated: false,
            kind,
            indices: false,
            writable: false,
        }
    }

    /// The rules of both.
    pub fn or(self, other: Broken) -> Broken
        ensures { result ≡ either self other }
    {
        Broken {
            unbound: self.unbound || other.unbound,
            rebound: self.rebound || other.rebound,
            repeated: self.repeated || other.repeated,
            kind: self.kind || other.kind,
            indices: self.indices || other.indices,
            writable: self.writable || other.writable,
        }
    }

    /// The rule that is told, where all are broken on this line.
    pub fn told(self, line: u32) -> Option<ShapeFault>
        ensures { seen result ≡ told line self }
    {
        if self.unbound {
            Some(ShapeFault::Unbound { line })
        } else if self.rebound {
            Some(ShapeFault::Rebound { line })
        } else if self.repeated {
            Some(ShapeFault::Repeated { line })
        } else if self.kind {
            Some(ShapeFault::WrongKind { line })
        } else if self.indices {
            Some(ShapeFault::WrongIndices { line })
        } else if self.writable {
            Some(ShapeFault::NotWritable { line })
        } else {
            None
        }
    }
}
