//! The program: the host's files and streams, handed to the top call.
#![tactic(auto)]

ghost use Rattle.std.specs.Prelude.{◌≡◌, ◌≢◌};
ghost use Rattle.sip_driver.specs.Says.{Says, line_of};

use either::{Either, Left, Right};
use sip_driver::{Status, sip};
use sip_files::{HostFiles, HostSink, Sink};
use std::env;
use std::io::{self, ErrorKind, Stderr, Stdout};
use std::process::ExitCode;

fn main(rt: HostRuntime) -> ExitCode {
    let mut files = HostFiles::new(&rt);
    let mut out: HostSink<Either<Stdout, Stderr>> = HostSink::new(Left(rt.stdout()));
    let mut err = HostSink::new(Right(rt.stderr()));
    let status = match words(&rt) {
        Ok(words) => sip(rt.alloc(), words.as_slice(), &mut files, &mut out, &mut err),
        Err(error) => refuse(&mut err, error.kind()),
    };
    ExitCode::from(status.0)
}

// The words that the program was called with, its own name first.
fn words(rt: &HostRuntime) -> io::Result<Vec<String>> {
    let words = env::args(rt)?.collect(rt.alloc())?;
    Ok(words)
}

// Words that couldn't be had: one that is no text is a faulty command line.
fn refuse<K: Sink>(err: &mut K, kind: ErrorKind) -> Status
    ensures memory { kind ≡ ErrorKind.OutOfMemory → result.0 ≡ 13 }
    ensures usage { kind ≢ ErrorKind.OutOfMemory → result.0 ≡ 1 }
    ensures line { Says K.written K.faults err.old err.new (line_of result.0) }
{
    if kind == ErrorKind::OutOfMemory {
        let _ = err.write(b"sip: memory\n");
        return Status::OUT_OF_MEMORY;
    }
    let _ = err.write(b"sip: usage\n");
    Status::USAGE
}
