//! With a file's name, times the lexer and the parser over it: for each a line with its name, bytes, nanoseconds and a count.
#![tactic(auto)]

use sial_lexer::lex;
use sial_parser::parse;
use sip_files::{Files, HostFiles};
use std::time::Instant;
use std::{env, io};

const MOST_TEXT: u64 = 1_048_576;

fn main(rt: HostRuntime) -> io::Result<()> {
    let words: Vec<String> = env::args(&rt)?.collect(rt.alloc())?;
    // Without a word nothing is timed, so that the gate's run of this program says nothing of speed.
    match words.as_slice() {
        [_, name] => time(&rt, name.as_str()),
        _ => Ok(()),
    }
}

fn time(rt: &HostRuntime, name: &str) -> io::Result<()> {
    let mut files = HostFiles::new(rt);
    let mut text = Vec::new(rt.alloc());
    match files.load(name, &mut text, MOST_TEXT) {
        Ok(()) => time_text(rt, text.as_slice()),
        Err(_) => println!(rt; "unread"),
    }
}

fn time_text(rt: &HostRuntime, text: &[u8]) -> io::Result<()> {
    let start = Instant::now(rt)?;
    let tokens = match lex(rt.alloc(), text) {
        Ok(tokens) => tokens.len() as usize,
        Err(_) => 0,
    };
    report(rt, "lex", text, start, tokens)?;
    let start = Instant::now(rt)?;
    let statements = match parse(rt.alloc(), text) {
        Ok(program) => program.body.len(),
        Err(_) => 0,
    };
    report(rt, "parse", text, start, statements)
}

fn report(
    rt: &HostRuntime,
    call: &str,
    text: &[u8],
    start: Instant,
    count: usize,
) -> io::Result<()> {
    let took = start.elapsed(rt)?;
    println!(rt; "{call} {} {} {count}", text.len(), took.as_nanos())
}
