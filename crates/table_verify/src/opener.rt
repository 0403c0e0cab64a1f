//! What statements are open while code is gone through.

ghost use Rattle.std.specs.Prelude.{◌≡◌};
ghost use Rattle.table_verify.specs.Nesting as spec;

/// A kind of statement in which others stand: a loop, a pardo, or the first or second branch of an `if`.
#[derive(Clone, Copy)]
pub enum Opens {
    Loop,
    Pardo,
    First,
    Second,
}

/// A statement that is open, and its line.
#[derive(Clone, Copy)]
pub struct Opener {
    pub opens: Opens,
    pub line: u32,
}

/// Whether a loop is open.
pub fn is_loop(opens: Opens) -> bool
    ensures { result ≡ spec.is_loop opens }
{
    matches!(opens, Opens::Loop)
}

/// Whether a pardo is open.
pub fn is_pardo(opens: Opens) -> bool
    ensures { result ≡ spec.is_pardo opens }
{
    matches!(opens, Opens::Pardo)
}

/// Whether the first branch of an `if` is open.
pub fn is_first(opens: Opens) -> bool
    ensures { result ≡ spec.is_first opens }
{
    matches!(opens, Opens::First)
}

/// Whether a branch of an `if` is open.
pub fn is_branch(opens: Opens) -> bool
    ensures { result ≡ spec.is_branch opens }
{
    matches!(opens, Opens::First | Opens::Second)
}
