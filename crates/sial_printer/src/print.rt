//! What is printed as some text.

ghost use Rattle.std.specs.Prelude.{◌≡◌, ℕ, List, flat_map};
ghost use Rattle.sial_syntax.specs.Tree.{Tree, tree};
ghost use Rattle.sip_files.specs.Sink.{Wrote};

use sial_syntax::Program;
use sip_files::{Failed, Sink};

/// Something of a program, which is printed as some text.
pub trait Print {
    /// Its text.
    ghost text: { Tree → Self → List ℕ };

    /// Prints it.
    fn print<K: Sink>(&self, program: &Program, sink: &mut K) -> Result<(), Failed>
        ensures { Wrote (K.written sink.old) (K.written sink.new) (K.faults sink.old) (K.faults sink.new) (K.kept sink.old) (K.kept sink.new) (text (tree program.now) self.now) result };
}

/// Prints some in order.
pub fn all<T: Print, K: Sink>(program: &Program, sink: &mut K, some: &[T]) -> Result<(), Failed>
    ensures { Wrote (K.written sink.old) (K.written sink.new) (K.faults sink.old) (K.faults sink.new) (K.kept sink.old) (K.kept sink.new) (flat_map (T.text (tree program.now)) some.now) result }
{
    for one in some {
        one.print(program, sink)?;
    }
    Ok(())
}
