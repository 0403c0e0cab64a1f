//! Which accesses to one block may stand together in an epoch.

ghost use Rattle.std.specs.Prelude.{◌≡◌};
ghost use Rattle.sial_meaning.specs.Access.{may_stand};

use sial_syntax::Access;

/// Whether a later access may stand beside an earlier one: only reads, only adds, or only maxes.
pub fn stand_together(earlier: Access, later: Access) -> bool
    ensures { result ≡ may_stand earlier later }
{
    match (earlier, later) {
        (Access::Read, Access::Read) => true,
        (Access::Add, Access::Add) => true,
        (Access::Max, Access::Max) => true,
        _ => false,
    }
}
