//! The contraction by panels: parts of both sources are packed once, and a tile runs over a whole part.

ghost use Rattle.std.specs.Prelude.{◌≡◌, ◌+◌, ◌-◌, ◌*◌, ◌%◌, ◌^◌, ◌<◌, ◌≤◌, ℕ, length, slice_index, true};
ghost use Rattle.kernel_permute.specs.How.{combined};
ghost use Rattle.kernel_contract.specs.Contraction.{Contracted, Fits};
ghost use Rattle.kernel_contract.specs.Panels.{column_entry};
ghost use Rattle.kernel_contract.specs.Parts.{AreTargets, Reaches, Replaced, sum_from, term_at};
ghost use Rattle.kernel_contract.specs.Positions.{offset_a, offset_b, offset_to};
ghost use Rattle.kernel_contract.specs.Product.{entry};
ghost use Rattle.kernel_contract.specs.Sum.{sum_to};
ghost use Rattle.kernel_contract.specs.Walks.{IsFilled, Stands, count, gone, position_at};

use crate::axis::Axis;
use crate::panel::{Panel, front_sums, pack, pack_columns};
use crate::run::Run;
use crate::storing::store;
use crate::walk::Walk;
use kernel_permute::How;

/// Contracts as `contract` does, where each list of axes has a position.
pub fn by_panels<const FA: usize, const FB: usize, const S: usize>(
    a: &[u64],
    b: &[u64],
    to: &mut [u64],
    free_a: &[Axis; FA],
    free_b: &[Axis; FB],
    shared: &[Axis; S],
    how: How,
)
    requires rows { 0 < count free_a.now }
    requires positions { 0 < count shared.now }
    requires fits { Fits (length a.now) (length b.now) (length to.old)
        free_a.now free_b.now shared.now }
    ensures { Contracted a.now b.now to.old to.new free_a.now free_b.now shared.now how }
{
    let mut columns = Walk::start(free_b);
    while columns.left {
        let group = columns.run::<64>(free_b);
        through(a, b, to, free_a, &group, shared, how);
    }
}

// up to 64 columns of the target, whole
fn through<const FA: usize, const S: usize>(
    a: &[u64],
    b: &[u64],
    to: &mut [u64],
    free_a: &[Axis; FA],
    columns: &Run<64>,
    shared: &[Axis; S],
    how: How,
)
    requires some_columns { 0 < columns.now.len }
    requires few_columns { columns.now.len ≤ 64 }
    requires filled { IsFilled columns.now }
    requires positions { 0 < count shared.now }
    requires in_a { (i : ℕ) → i < count free_a.now
        → Reaches offset_a shared.now (offset_a free_a.now (position_at free_a.now i)) (length a.now) }
    requires in_b { (j : ℕ) → j < columns.now.len
        → Reaches offset_b shared.now (slice_index columns.now.b j) (length b.now) }
    requires targets { AreTargets
        (λ i j. (offset_to free_a.now (position_at free_a.now i) + slice_index columns.now.to j) % 2 ^ 64)
        (count free_a.now) columns.now.len (length to.old) }
    ensures { Replaced how
        (λ i j. (offset_to free_a.now (position_at free_a.now i) + slice_index columns.now.to j) % 2 ^ 64)
        (λ i j. sum_from a.now b.now shared.now (offset_a free_a.now (position_at free_a.now i))
        (slice_index columns.now.b j))
        (count free_a.now) columns.now.len to.old to.new }
{
    let mut panels = [[[0u64; 4]; 64]; 16];
    let mut positions = Walk::start(shared);
    over_part(
        a,
        b,
        to,
        free_a,
        columns,
        shared,
        &mut positions,
        &mut panels,
        how,
    );
    while positions.left {
        over_part(
            a,
            b,
            to,
            free_a,
            columns,
            shared,
            &mut positions,
            &mut panels,
            further(how),
        );
    }
}

// the same over the next shared positions, up to 64
fn over_part<const FA: usize, const S: usize>(
    a: &[u64],
    b: &[u64],
    to: &mut [u64],
    free_a: &[Axis; FA],
    columns: &Run<64>,
    shared: &[Axis; S],
    positions: &mut Walk<S>,
    panels: &mut [Panel; 16],
    how: How,
)
    requires left { positions.old.left ≡ true }
    requires stands { Stands shared.now positions.old }
    requires some_columns { 0 < columns.now.len }
    requires few_columns { columns.now.len ≤ 64 }
    requires filled { IsFilled columns.now }
    requires in_a { (i : ℕ) → i < count free_a.now
        → Reaches offset_a shared.now (offset_a free_a.now (position_at free_a.now i)) (length a.now) }
    requires in_b { (j : ℕ) → j < columns.now.len
        → Reaches offset_b shared.now (slice_index columns.now.b j) (length b.now) }
    requires targets { AreTargets
        (λ i j. (offset_to free_a.now (position_at free_a.now i) + slice_index columns.now.to j) % 2 ^ 64)
        (count free_a.now) columns.now.len (length to.old) }
    ensures stands { Stands shared.now positions.new }
    ensures further { gone shared.now positions.old < gone shared.now positions.new }
    ensures within { gone shared.now positions.new ≤ count shared.now }
    ensures added { Replaced how
        (λ i j. (offset_to free_a.now (position_at free_a.now i) + slice_index columns.now.to j) % 2 ^ 64)
        (λ i j. sum_to (gone shared.now positions.new - gone shared.now positions.old)
        (λ k. term_at a.now b.now shared.now (offset_a free_a.now (position_at free_a.now i))
        (slice_index columns.now.b j) (gone shared.now positions.old + k)) % 2 ^ 64)
        (count free_a.now) columns.now.len to.old to.new }
{
    let part = positions.run::<64>(shared);
    pack_columns(b, columns, &part, panels);
    down(a, to, free_a, &part, columns, panels, how);
}

// how a further part of a sum meets the target
fn further(how: How) -> How
    ensures { (old value more : ℕ) → value < 2 ^ 64 → more < 2 ^ 64
        → combined result (combined how old value) more ≡ combined how old ((value + more) % 2 ^ 64) }
{
    match how {
        How::Set | How::Add => How::Add,
        How::Subtract => How::Subtract,
    }
}

// all rows, over the shared positions of a part
fn down<const FA: usize>(
    a: &[u64],
    to: &mut [u64],
    free_a: &[Axis; FA],
    part: &Run<64>,
    columns: &Run<64>,
    panels: &[Panel; 16],
    how: How,
)
    requires few_positions { part.now.len ≤ 64 }
    requires few_columns { columns.now.len ≤ 64 }
    requires in_a { (i k : ℕ) → i < count free_a.now → k < part.now.len
        → (slice_index part.now.a k + offset_a free_a.now (position_at free_a.now i)) % 2 ^ 64
        < length a.now }
    requires targets { AreTargets
        (λ i j. (offset_to free_a.now (position_at free_a.now i) + slice_index columns.now.to j) % 2 ^ 64)
        (count free_a.now) columns.now.len (length to.old) }
    ensures { Replaced how
        (λ i j. (offset_to free_a.now (position_at free_a.now i) + slice_index columns.now.to j) % 2 ^ 64)
        (λ i j. sum_to part.now.len (λ k. slice_index a.now
        ((slice_index part.now.a k + offset_a free_a.now (position_at free_a.now i)) % 2 ^ 64)
        * column_entry panels.now k j) % 2 ^ 64)
        (count free_a.now) columns.now.len to.old to.new }
{
    let mut packed = [[0u64; 4]; 64];
    let mut rows = Walk::start(free_a);
    while rows.left {
        let run = rows.run::<4>(free_a);
        pack(a, &run.a, &part.a, part.len, &mut packed);
        along(to, &run, columns, &packed, panels, part.len, how);
    }
}

// up to four rows, over the columns of a group
fn along(
    to: &mut [u64],
    rows: &Run<4>,
    columns: &Run<64>,
    packed: &Panel,
    panels: &[Panel; 16],
    positions: usize,
    how: How,
)
    requires few_rows { rows.now.len ≤ 4 }
    requires few_columns { columns.now.len ≤ 64 }
    requires few_positions { positions ≤ 64 }
    requires targets { AreTargets
        (λ i j. (slice_index rows.now.to i + slice_index columns.now.to j) % 2 ^ 64)
        rows.now.len columns.now.len (length to.old) }
    ensures { Replaced how
        (λ i j. (slice_index rows.now.to i + slice_index columns.now.to j) % 2 ^ 64)
        (λ i j. sum_to positions (λ k. entry packed.now k i * column_entry panels.now k j) % 2 ^ 64)
        rows.now.len columns.now.len to.old to.new }
{
    for q in 0..16usize {
        if 4 * q < columns.len {
            let left = columns.len - 4 * q;
            let sums = front_sums(
                &packed[..positions],
                &panels[q][..positions],
                rows.len,
                left,
            );
            store(to, rows, &columns.four(4 * q), &sums, how);
        }
    }
}
