//! Two blocks contracted into a third, or to one number.

ghost use Rattle.std.specs.Prelude.{◌≡◌, ◌<◌, ◌≤◌, length};
ghost use Rattle.exec_sides.specs.Axes.{axes_in};
ghost use Rattle.exec_sides.specs.Contracting.{IsContraction, summed};
ghost use Rattle.exec_sides.specs.Met.{Met};
ghost use Rattle.exec_sides.specs.Seen.{lengths_of, seen, sight_of};

use crate::axes::{Axes, Shapes, axes_of};
use crate::seen::{Seen, Shape};
use crate::uniform::meet_number;
use kernel_contract::{Axis, contract_any};
use kernel_permute::How;

/// Each number of the target meets the sum, over all positions of the indices that both blocks have, of the product of their numbers.
pub fn contract_by_name(to: &Shape, left: &Seen, right: &Seen, into: &mut [u64], how: How)
    requires fits { IsContraction (sight_of to.now into.old) (seen left.now) (seen right.now) }
    ensures { Met how (lengths_of to.now) (λ t. summed to.now.at.now t (seen left.now) (seen right.now)) into.old into.new }
{
    if into.is_empty() {
        return;
    }
    if left.words.is_empty() {
        meet_number(to, 0, into, how);
    } else if right.words.is_empty() {
        meet_number(to, 0, into, how);
    } else {
        contract_all(to, left, right, into, how);
    }
}

// The same where all three have numbers.
fn contract_all(to: &Shape, left: &Seen, right: &Seen, into: &mut [u64], how: How)
    requires fits { IsContraction (sight_of to.now into.old) (seen left.now) (seen right.now) }
    requires target { 0 < length into.old }
    requires first { 0 < length left.now.words.now }
    requires second { 0 < length right.now.words.now }
    ensures { Met how (lengths_of to.now) (λ t. summed to.now.at.now t (seen left.now) (seen right.now)) into.old into.new }
{
    let shapes = Shapes {
        to: *to,
        left: left.shape,
        right: right.shape,
    };
    let rows = axes_of(&shapes, &left.shape, right.shape.at, false);
    let columns = axes_of(&shapes, &right.shape, left.shape.at, false);
    let shared = axes_of(&shapes, &left.shape, right.shape.at, true);
    contract_any(
        left.words,
        right.words,
        into,
        listed(&rows),
        listed(&columns),
        listed(&shared),
        how,
    );
}

// The axes that are there.
fn listed(axes: &Axes) -> &[Axis]
    requires { axes.now.count ≤ 6 }
    ensures { result.now ≡ axes_in axes.now }
{
    &axes.list[..axes.count]
}
