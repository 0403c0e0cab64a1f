//! Words that meet other words, on plain slices.

ghost use Rattle.std.specs.Prelude.{◌≡◌, ◌+◌, ◌≤◌, ◌<◌, ◌++◌, length, take, drop};
ghost use Rattle.block_pool.specs.Memory.{with_front};
ghost use Rattle.block_pool.specs.Mixed.{mixed};

use crate::how::How;

// Words meet others of the same list, from one place on and from another.
pub(crate) fn mix_beside(words: &mut [u64], from: usize, to: usize, len: usize, how: How)
    requires from { from + len ≤ length words.old }
    requires to { to + len ≤ length words.old }
    requires before { from < to → from + len ≤ to }
    requires behind { to ≤ from → to + len ≤ from }
    ensures { words.new ≡ take to words.old ++ mixed how len (drop to words.old) (drop from words.old) }
{
    if from < to {
        let (front, back) = words.split_at_mut(to);
        mix(back, &front[from..from + len], how);
    } else {
        let (front, back) = words.split_at_mut(from);
        mix(&mut front[to..], &back[..len], how);
    }
}

// Words meet the front of others.
#[tactic(auto, using(crate::proofs::Laws::all))]
fn mix(to: &mut [u64], from: &[u64], how: How)
    requires { length from.now ≤ length to.old }
    ensures { to.new ≡ mixed how (length from.now) to.old from.now }
{
    match how {
        How::Set => write_front(to, from),
        How::Add => add(to, from),
        How::Greatest => keep_greatest(to, from),
    }
}

fn add(to: &mut [u64], from: &[u64])
    requires { length from.now ≤ length to.old }
    ensures { to.new ≡ mixed How.Add (length from.now) to.old from.now }
{
    for at in 0..from.len() {
        to[at] = to[at].wrapping_add(from[at]);
    }
}

fn keep_greatest(to: &mut [u64], from: &[u64])
    requires { length from.now ≤ length to.old }
    ensures { to.new ≡ mixed How.Greatest (length from.now) to.old from.now }
{
    for at in 0..from.len() {
        to[at] = to[at].max(from[at]);
    }
}

// Words replace the front of others.
pub(crate) fn write_front(to: &mut [u64], from: &[u64])
    requires { length from.now ≤ length to.old }
    ensures { to.new ≡ with_front to.old from.now }
{
    let (front, _) = to.split_at_mut(from.len());
    front.copy_from_slice(from);
}
