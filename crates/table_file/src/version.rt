//! The version of a file.

ghost use Rattle.std.specs.Prelude.{◌≡◌};
ghost use Rattle.std.specs.List.{list_any};
ghost use Rattle.table_file.specs.Bytes as spec;

use sial_syntax::Access;
use sip_tables::{Instruction, Operation};

/// 2 where some block is put so that the greater one is kept, and else 1.
pub fn version(code: &[Instruction]) -> u16
    ensures { result ≡ spec.version code.now }
{
    if any_max(code) {
        return 2;
    }
    1
}

// Whether some block is put so that the greater one is kept.
fn any_max(code: &[Instruction]) -> bool
    ensures { result ≡ list_any (λ i. spec.puts_max i.operation) code.now }
{
    code.iter().any(|i| puts_max(&i.operation))
}

// Whether an operation puts a block so that the greater one is kept.
fn puts_max(operation: &Operation) -> bool
    ensures { result ≡ spec.puts_max operation.now }
{
    match operation {
        Operation::Put { how, .. } => is_max(*how),
        Operation::Prepare { how, .. } => is_max(*how),
        _ => false,
    }
}

// Whether a way to put a block keeps the greater one.
fn is_max(how: Access) -> bool
    ensures { result ≡ spec.is_max how }
{
    match how {
        Access::Max => true,
        _ => false,
    }
}
