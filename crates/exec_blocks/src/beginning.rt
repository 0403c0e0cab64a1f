//! The static blocks as a program begins.

ghost use Rattle.std.specs.Prelude.{◌≡◌, ◌+◌, ◌<◌, ◌≤◌, ℕ, List, [], ◌∷◌, Some, None, true, false, length, replicate};
ghost use Rattle.sip_setting.specs.Given.{given};
ghost use Rattle.sip_setting.specs.Seen.{setting_of};
ghost use Rattle.index_spaces.specs.Starting.{given_of};
ghost use Rattle.sial_syntax.specs.Spaces.{same_kind};
ghost use Rattle.sial_meaning.specs.Setting.{Given, array_kind, block_count, block_words, zeros};
ghost use Rattle.sial_meaning.specs.Sound.{is_start};
ghost use Rattle.block_pool.specs.Memory.{Memory, free_in, last_class};
ghost use Rattle.block_pool.specs.Standing.{lease_at};
ghost use Rattle.block_seats.specs.Counted.{HasRunRoom};
ghost use Rattle.block_seats.specs.Putting.{Puts};
ghost use Rattle.block_seats.specs.Seated.{IsWide, SeatsStand, empty};
ghost use Rattle.exec_blocks.specs.Beginning.{IsWideFor, static_blocks};
ghost use Rattle.exec_blocks.specs.Starting.{AreGiven, AreStartBut, AreZeros, Opens, static_at};

use crate::lengths::block_len;
use block_pool::Pool;
use block_seats::Seats;
use exec_job::Job;
use index_spaces::StartBlock;
use sial_syntax::ArrayKind;

/// Puts each static block down where no block is: the input's, else zeros.
pub fn put_statics(seats: &mut Seats, job: &Job, pool: &mut Pool)
    requires none { seats.old ≡ empty (length seats.old.slots) }
    requires room { HasRunRoom pool.old seats.old 0 (static_blocks (setting_of job.now)) }
    requires wide { IsWideFor (setting_of job.now) pool.old ArrayKind.Static }
    ensures opens { Opens (setting_of job.now) pool.old pool.new (length seats.old.slots) seats.new }
    ensures start { AreStartBut (setting_of job.now) pool.new seats.new [] }
{
    put_zeros(seats, job, pool);
    put_given(seats, job, pool);
}

// Zeros for each static block.
fn put_zeros(seats: &mut Seats, job: &Job, pool: &mut Pool)
    requires none { seats.old ≡ empty (length seats.old.slots) }
    requires room { HasRunRoom pool.old seats.old 0 (static_blocks (setting_of job.now)) }
    requires wide { IsWideFor (setting_of job.now) pool.old ArrayKind.Static }
    ensures opens { Opens (setting_of job.now) pool.old pool.new (length seats.old.slots) seats.new }
    ensures zeros { AreZeros (setting_of job.now) pool.new seats.new (length (setting_of job.now).program.arrays) }
{
    for array in 0..job.arrays_len() {
        zero_if_static(seats, job, pool, array as u16);
    }
}

// Zeros for the blocks of one array, if it is static.
fn zero_if_static(seats: &mut Seats, job: &Job, pool: &mut Pool, array: u16)
    requires declared { array < length (setting_of job.now).program.arrays }
    requires room { HasRunRoom pool.old seats.old 0 (static_blocks (setting_of job.now)) }
    requires wide { IsWideFor (setting_of job.now) pool.old ArrayKind.Static }
    ensures opens { (old : Memory) (count : ℕ) → Opens (setting_of job.now) old pool.old count seats.old → Opens (setting_of job.now) old pool.new count seats.new }
    ensures zeros { AreZeros (setting_of job.now) pool.old seats.old array → AreZeros (setting_of job.now) pool.new seats.new (array + 1) }
{
    match job.array_kind(array) {
        ArrayKind::Static => zero_array(seats, job, pool, array),
        _ => {}
    }
}

// Zeros for the blocks of a static array.
fn zero_array(seats: &mut Seats, job: &Job, pool: &mut Pool, array: u16)
    requires declared { array < length (setting_of job.now).program.arrays }
    requires fixed { array_kind (setting_of job.now) array ≡ ArrayKind.Static }
    requires room { HasRunRoom pool.old seats.old 0 (static_blocks (setting_of job.now)) }
    requires wide { IsWideFor (setting_of job.now) pool.old ArrayKind.Static }
    ensures opens { (old : Memory) (count : ℕ) → Opens (setting_of job.now) old pool.old count seats.old → Opens (setting_of job.now) old pool.new count seats.new }
    ensures zeros { AreZeros (setting_of job.now) pool.old seats.old array → AreZeros (setting_of job.now) pool.new seats.new (array + 1) }
{
    let _places = seats.len();
    let spaces = job.spaces();
    let first = spaces.first_block(array) as usize;
    for number in 0..spaces.blocks_of(array) {
        zero_block(seats, job, pool, array, number, first + number as usize);
    }
}

/// Zeros for a block at its place, by its number within its array, which isn't temp.
pub fn zero_block(
    seats: &mut Seats,
    job: &Job,
    pool: &mut Pool,
    array: u16,
    number: u32,
    place: usize,
)
    requires counted { same_kind (array_kind (setting_of job.now) array) ArrayKind.Temp ≡ false }
    requires below { number < block_count (setting_of job.now) array }
    requires stands { SeatsStand pool.old seats.old }
    requires at { place < length seats.old.slots }
    requires wide { IsWide pool.old (block_words (setting_of job.now) array number) }
    requires room { lease_at seats.old.slots place ≡ None → 0 < free_in pool.old last_class }
    ensures { Puts pool.old pool.new seats.old seats.new place (Some (zeros (setting_of job.now) array number)) }
{
    seats.put_zeros(pool, place, block_len(job, array, number));
}

// The input's blocks over the zeros.
fn put_given(seats: &mut Seats, job: &Job, pool: &mut Pool)
    requires room { HasRunRoom pool.old seats.old 0 (static_blocks (setting_of job.now)) }
    requires wide { IsWideFor (setting_of job.now) pool.old ArrayKind.Static }
    ensures opens { (old : Memory) (count : ℕ) → Opens (setting_of job.now) old pool.old count seats.old → Opens (setting_of job.now) old pool.new count seats.new }
    ensures start { AreStartBut (setting_of job.now) pool.old seats.old (setting_of job.now).blocks → AreStartBut (setting_of job.now) pool.new seats.new [] }
{
    let _spaces = job.spaces();
    let blocks = job.start_blocks();
    for block in blocks {
        put_if_static(seats, job, pool, block);
    }
}

// One of the input's blocks, if its array is static; others are not the worker's own.
fn put_if_static(seats: &mut Seats, job: &Job, pool: &mut Pool, block: &StartBlock)
    requires fits { is_start (setting_of job.now) (given (given_of block.now)) ≡ true }
    requires room { HasRunRoom pool.old seats.old 0 (static_blocks (setting_of job.now)) }
    requires wide { IsWideFor (setting_of job.now) pool.old ArrayKind.Static }
    ensures fixed { array_kind (setting_of job.now) block.now.array ≡ ArrayKind.Static → Puts pool.old pool.new seats.old seats.new (static_at (setting_of job.now) block.now.array block.now.number) (Some block.now.words.items) }
    ensures other { (array_kind (setting_of job.now) block.now.array ≡ ArrayKind.Static → ⊥) → (pool.new ≡ pool.old) × (seats.new ≡ seats.old) }
{
    match job.array_kind(block.array) {
        ArrayKind::Static => put_static(seats, job, pool, block),
        _ => {}
    }
}

// One of them, of a static array.
fn put_static(seats: &mut Seats, job: &Job, pool: &mut Pool, block: &StartBlock)
    requires fixed { array_kind (setting_of job.now) block.now.array ≡ ArrayKind.Static }
    requires fits { is_start (setting_of job.now) (given (given_of block.now)) ≡ true }
    requires room { HasRunRoom pool.old seats.old 0 (static_blocks (setting_of job.now)) }
    requires wide { IsWideFor (setting_of job.now) pool.old ArrayKind.Static }
    ensures { Puts pool.old pool.new seats.old seats.new (static_at (setting_of job.now) block.now.array block.now.number) (Some block.now.words.items) }
{
    let _places = seats.len();
    let spaces = job.spaces();
    let first = spaces.first_block(block.array) as usize;
    seats.put(pool, first + block.number as usize, block.words.as_slice());
}
