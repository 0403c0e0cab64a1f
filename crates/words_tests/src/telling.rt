//! What words are told to ask for.

use sip_words::{Choices, Request, Running, Setup, WordsFault, read_words};
use std::alloc::{AllocError, Global};
use std::test::Fail;

/// What words ask for, told in one line; the words stand behind the program's name, with one space between them.
pub fn told(alloc: Global, words: &str) -> Result<String, Fail> {
    let words = all_words(alloc, words)?;
    let told = match read_words(alloc, &words) {
        Ok(request) => told_request(alloc, request)?,
        Err(WordsFault::Usage) => String::from_str(alloc, "usage")?,
        Err(WordsFault::OutOfMemory) => String::from_str(alloc, "memory")?,
    };
    Ok(told)
}

fn all_words(alloc: Global, words: &str) -> Result<Vec<String>, AllocError> {
    let mut all = Vec::new(alloc);
    all.push(String::from_str(alloc, "sip")?)?;
    for word in words.split(' ') {
        all.push(String::from_str(alloc, word)?)?;
    }
    Ok(all)
}

fn told_request(alloc: Global, request: Request<'_>) -> Result<String, AllocError> {
    match request {
        Request::Run {
            program,
            input,
            setup,
            running,
        } => {
            let setup = told_setup(alloc, setup)?;
            let running = told_running(alloc, running)?;
            format!(in alloc; "run {program} {input} {setup} {running}")
        }
        Request::Check { program, input } => format!(in alloc; "check {program} {input}"),
        Request::Compile { program, table } => format!(in alloc; "compile {program} {table}"),
        Request::DryRun {
            program,
            input,
            setup,
        } => {
            let setup = told_setup(alloc, setup)?;
            format!(in alloc; "dryrun {program} {input} {setup}")
        }
        Request::Replay {
            program,
            input,
            record_name,
            setup,
        } => {
            let setup = told_setup(alloc, setup)?;
            format!(in alloc; "replay {program} {input} {record_name} {setup}")
        }
        Request::Demo { number } => format!(in alloc; "demo {number}"),
    }
}

// The numbers of a setup in order, and the file of places or `-`.
fn told_setup(alloc: Global, setup: Setup<'_>) -> Result<String, AllocError> {
    let Setup {
        workers,
        servers,
        cache,
        puts,
        server_cache,
        place,
    } = setup;
    let place = place.unwrap_or("-");
    format!(in alloc; "{workers} {servers} {cache} {puts} {server_cache} {place}")
}

// The choices, the record's name, the store's file or `-`, the most steps or `-`, and whether the result is written.
fn told_running(alloc: Global, running: Running<'_>) -> Result<String, AllocError> {
    let choices = told_choices(alloc, running.choices)?;
    let record_name = running.record_name;
    let store = running.store.unwrap_or("-");
    let steps = told_steps(alloc, running.steps)?;
    let dump = running.dump;
    format!(in alloc; "{choices} {record_name} {store} {steps} {dump}")
}

fn told_choices(alloc: Global, choices: Choices<'_>) -> Result<String, AllocError> {
    match choices {
        Choices::Unchosen => String::from_str(alloc, "unchosen"),
        Choices::File(name) => format!(in alloc; "file {name}"),
        Choices::Seed(seed) => format!(in alloc; "seed {seed}"),
    }
}

fn told_steps(alloc: Global, steps: Option<u64>) -> Result<String, AllocError> {
    match steps {
        Some(steps) => format!(in alloc; "{steps}"),
        None => String::from_str(alloc, "-"),
    }
}
