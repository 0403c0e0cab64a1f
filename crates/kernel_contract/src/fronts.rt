//! Front parts of small matrices.

ghost use Rattle.std.specs.Prelude.{◌≡◌, ◌<◌, ◌≤◌, ℕ, slice_index};
ghost use Rattle.kernel_contract.specs.Product.{FrontSet, entry};

/// The front `M` by `N` part.
pub fn front<const M: usize, const N: usize>(from: &[[u64; 4]; 4]) -> [[u64; N]; M]
    requires rows { M ≤ 4 }
    requires columns { N ≤ 4 }
    ensures { (i j : ℕ) → i < M → j < N → entry result i j ≡ entry from.now i j }
{
    let mut part = [[0u64; N]; M];
    for i in 0..M {
        part[i] = front_row(&from[i]);
    }
    part
}

fn front_row<const N: usize>(from: &[u64; 4]) -> [u64; N]
    requires { N ≤ 4 }
    ensures { (j : ℕ) → j < N → slice_index result j ≡ slice_index from.now j }
{
    let mut part = [0u64; N];
    for j in 0..N {
        part[j] = from[j];
    }
    part
}

/// Writes a part over the front.
pub fn set_front<const M: usize, const N: usize>(part: &[[u64; N]; M], to: &mut [[u64; 4]; 4])
    requires rows { M ≤ 4 }
    requires columns { N ≤ 4 }
    ensures { FrontSet M N part.now to.old to.new }
{
    for i in 0..M {
        to[i] = with_front(&part[i], &to[i]);
    }
}

fn with_front<const N: usize>(part: &[u64; N], row: &[u64; 4]) -> [u64; 4]
    requires { N ≤ 4 }
    ensures front { (j : ℕ) → j < N → slice_index result j ≡ slice_index part.now j }
    ensures back { (j : ℕ) → N ≤ j → slice_index result j ≡ slice_index row.now j }
{
    let mut whole = *row;
    for j in 0..N {
        whole[j] = part[j];
    }
    whole
}
