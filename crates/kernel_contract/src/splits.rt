//! The contraction for every split of up to six dimensions.

ghost use Rattle.std.specs.Prelude.{◌≡◌, ◌+◌, ◌≤◌, ◌-◌, ◌++◌, length, replicate};
ghost use Rattle.kernel_contract.specs.Contraction.{Contracted, Fits};
ghost use Rattle.kernel_contract.specs.Positions.{filled_up};

use crate::axis::Axis;
use crate::contracting::contract;
use kernel_permute::How;

/// Contracts as `contract` does, for any numbers of free and shared axes.
pub fn contract_any(
    a: &[u64],
    b: &[u64],
    to: &mut [u64],
    free_a: &[Axis],
    free_b: &[Axis],
    shared: &[Axis],
    how: How,
)
    requires dimensions_a { length free_a.now + length shared.now ≤ 6 }
    requires dimensions_b { length free_b.now + length shared.now ≤ 6 }
    requires dimensions_to { length free_a.now + length free_b.now ≤ 6 }
    requires fits { Fits (length a.now) (length b.now) (length to.old)
        free_a.now free_b.now shared.now }
    ensures { Contracted a.now b.now to.old to.new free_a.now free_b.now shared.now how }
{
    if free_a.len().max(free_b.len()).max(shared.len()) <= 2 {
        contract_filled::<2>(a, b, to, free_a, free_b, shared, how);
    } else {
        contract_filled::<6>(a, b, to, free_a, free_b, shared, how);
    }
}

// with axes of one position in front of each list, so that each has `N`
fn contract_filled<const N: usize>(
    a: &[u64],
    b: &[u64],
    to: &mut [u64],
    free_a: &[Axis],
    free_b: &[Axis],
    shared: &[Axis],
    how: How,
)
    requires most { N ≤ 6 }
    requires few_a { length free_a.now ≤ N }
    requires few_b { length free_b.now ≤ N }
    requires few_shared { length shared.now ≤ N }
    requires fits { Fits (length a.now) (length b.now) (length to.old)
        free_a.now free_b.now shared.now }
    ensures { Contracted a.now b.now to.old to.new free_a.now free_b.now shared.now how }
{
    contract::<N, N, N>(
        a,
        b,
        to,
        &filled(free_a),
        &filled(free_b),
        &filled(shared),
        how,
    );
}

fn filled<const N: usize>(axes: &[Axis]) -> [Axis; N]
    requires { length axes.now ≤ N }
    ensures { result ≡ filled_up (N - length axes.now) axes.now }
{
    let mut filled = [Axis::ONE; N];
    let all = &mut filled[..];
    all[N - axes.len()..].copy_from_slice(axes);
    filled
}
