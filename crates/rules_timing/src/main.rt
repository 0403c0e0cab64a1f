//! With a file's name, times the parser and the rules over it: for each a line with its name, nanoseconds and what it found.
#![tactic(auto)]

ghost use Rattle.std.specs.Prelude.{◌≤◌, length};
ghost use Rattle.sial_syntax.specs.Tree.{tree};

use scalar_discipline::{RuleFault, classify};
use shape_check::shapes;
use sial_parser::parse;
use sial_syntax::Program;
use sip_files::{Files, HostFiles};
use std::time::Instant;
use std::{env, io};

const MOST_TEXT: u64 = 1_048_576;

fn main(rt: HostRuntime) -> io::Result<()> {
    let words: Vec<String> = env::args(&rt)?.collect(rt.alloc())?;
    // Without a word nothing is timed, so that the gate's run of this program says nothing of speed.
    match words.as_slice() {
        [_, name] => time(&rt, name.as_str()),
        _ => Ok(()),
    }
}

fn time(rt: &HostRuntime, name: &str) -> io::Result<()> {
    let mut files = HostFiles::new(rt);
    let mut text = Vec::new(rt.alloc());
    match files.load(name, &mut text, MOST_TEXT) {
        Ok(()) => time_text(rt, text.as_slice()),
        Err(_) => println!(rt; "unread"),
    }
}

fn time_text(rt: &HostRuntime, text: &[u8]) -> io::Result<()> {
    let start = Instant::now(rt)?;
    match parse(rt.alloc(), text) {
        Ok(program) => {
            report(rt, "parse", start, "a tree")?;
            time_rules(rt, &program)
        }
        Err(_) => println!(rt; "no tree"),
    }
}

fn time_rules(rt: &HostRuntime, program: &Program) -> io::Result<()>
    requires { length (tree program.now).procedures ≤ 65535 }
{
    let start = Instant::now(rt)?;
    let found = match shapes(rt.alloc(), program) {
        Ok(()) => "granted",
        Err(_) => "refused",
    };
    report(rt, "shapes", start, found)?;
    let start = Instant::now(rt)?;
    let found = match classify(rt.alloc(), program) {
        Ok(_) => "granted",
        Err(RuleFault::Recursion { .. }) => "recursion",
        Err(_) => "refused",
    };
    report(rt, "classify", start, found)
}

fn report(rt: &HostRuntime, call: &str, start: Instant, found: &str) -> io::Result<()> {
    let took = start.elapsed(rt)?;
    println!(rt; "{call} {} {found}", took.as_nanos())
}
