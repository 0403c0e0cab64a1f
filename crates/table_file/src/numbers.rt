//! The numbers that stand for kinds, tests and operators.

ghost use Rattle.std.specs.Prelude.{◌≡◌};
ghost use Rattle.table_file.specs.Numbers.{kind_number as number_of_kind, array_number as number_of_array, test_number as number_of_test, op_number as number_of_op, bin_number as number_of_bin, how_number as number_of_how};

use sial_syntax::{Access, ArrayKind, Bin, Kind, Op, Test};

/// The number of what an index counts.
pub fn kind_number(kind: Kind) -> u8
    ensures { result ≡ number_of_kind kind }
{
    match kind {
        Kind::Ao => 1,
        Kind::Mo => 2,
        Kind::Moa => 3,
        Kind::Mob => 4,
        Kind::Index => 5,
    }
}

/// The number of where an array's blocks live.
pub fn array_number(kind: ArrayKind) -> u8
    ensures { result ≡ number_of_array kind }
{
    match kind {
        ArrayKind::Static => 1,
        ArrayKind::Temp => 2,
        ArrayKind::Local => 3,
        ArrayKind::Distributed => 4,
        ArrayKind::Served => 5,
    }
}

/// The number of a comparison.
pub fn test_number(test: Test) -> u8
    ensures { result ≡ number_of_test test }
{
    match test {
        Test::Less => 1,
        Test::LessEqual => 2,
        Test::Greater => 3,
        Test::GreaterEqual => 4,
        Test::Equal => 5,
        Test::NotEqual => 6,
    }
}

/// The number of how an assignment combines.
pub fn op_number(op: Op) -> u8
    ensures { result ≡ number_of_op op }
{
    match op {
        Op::Set => 1,
        Op::Add => 2,
        Op::Subtract => 3,
        Op::Scale => 4,
    }
}

/// The number of what stands between two operands.
pub fn bin_number(bin: Bin) -> u8
    ensures { result ≡ number_of_bin bin }
{
    match bin {
        Bin::Plus => 1,
        Bin::Minus => 2,
        Bin::Times => 3,
        Bin::Outer => 4,
    }
}

/// The number of how a block is put, 0 for a read.
pub fn how_number(how: Access) -> u8
    ensures { result ≡ number_of_how how }
{
    match how {
        Access::Read => 0,
        Access::Store => 1,
        Access::Add => 2,
        Access::Max => 3,
    }
}
