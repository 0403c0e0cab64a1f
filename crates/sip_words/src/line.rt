//! Words that aren't spelled plainly, read by `clap`.

ghost use Rattle.std.specs.Prelude.{IfOk};
ghost use Rattle.sip_words.specs.Asking.{IsRequest};
ghost use Rattle.sip_words.specs.Seen.{seen};

use crate::command::Command;
use crate::fault::WordsFault;
use crate::granted::granted;
use crate::request::Request;
use crate::setting::Setting;
use clap::error::ErrorKind;
use clap::{Arg, ArgAction, ArgMatches};
use std::alloc::{AllocError, Global};

const COMMANDS: [Command; 6] = [
    Command::Run,
    Command::Check,
    Command::Compile,
    Command::DryRun,
    Command::Replay,
    Command::Demo,
];

/// The request that words spell in a way of `clap`, within the same limits.
pub fn read_line<'a>(alloc: Global, words: &'a [String]) -> Result<Request<'a>, WordsFault>
    ensures { IfOk result (λ r. IsRequest (seen r)) }
{
    match command_line(alloc)?.try_get_matches_from(words) {
        Ok(found) => request_in(alloc, &found),
        Err(error) => Err(fault_of(error.kind())),
    }
}

// The fault of a refusal: help is no request either.
fn fault_of(kind: ErrorKind) -> WordsFault {
    if kind == ErrorKind::OutOfMemory {
        return WordsFault::OutOfMemory;
    }
    WordsFault::Usage
}

// The request of what was found.
fn request_in<'a>(alloc: Global, found: &ArgMatches<'a>) -> Result<Request<'a>, WordsFault>
    ensures { IfOk result (λ r. IsRequest (seen r)) }
{
    let Some((word, behind)) = found.subcommand() else {
        return Err(WordsFault::Usage);
    };
    match Command::named(word) {
        Some(command) => request_of(alloc, command, behind),
        None => Err(WordsFault::Usage),
    }
}

// The request of a command and what was found behind it.
#[tactic(auto, using(crate::proofs::GrantedLemmas::granted_is_request))]
fn request_of<'a>(
    alloc: Global,
    command: Command,
    found: &ArgMatches<'a>,
) -> Result<Request<'a>, WordsFault>
    ensures { IfOk result (λ r. IsRequest (seen r)) }
{
    let operands = operands_of(alloc, command, found)?;
    let settings = settings_of(alloc, command, found)?;
    match granted(command, operands.as_slice(), settings.as_slice()) {
        Some(request) => Ok(request),
        None => Err(WordsFault::Usage),
    }
}

// The words that were found behind a command, but for its options.
fn operands_of<'a>(
    alloc: Global,
    command: Command,
    found: &ArgMatches<'a>,
) -> Result<Vec<&'a str>, AllocError> {
    let mut operands = Vec::new(alloc);
    for name in command.operands() {
        if let Some(word) = found.get_str(name) {
            operands.push(word)?;
        }
    }
    Ok(operands)
}

// The settings that were found.
fn settings_of<'a>(
    alloc: Global,
    command: Command,
    found: &ArgMatches<'a>,
) -> Result<Vec<Setting<'a>>, AllocError> {
    let mut settings = Vec::new(alloc);
    for option in command.options() {
        if let Some(value) = value_of(found, option) {
            settings.push(Setting { option, value })?;
        }
    }
    Ok(settings)
}

// The value of an option, if it was found; that of `--dump` is empty.
fn value_of<'a>(found: &ArgMatches<'a>, option: &str) -> Option<&'a str> {
    if option != "--dump" {
        return found.get_str(option);
    }
    if found.get_flag(option) {
        return Some("");
    }
    None
}

// All commands.
fn command_line<'a>(alloc: Global) -> Result<clap::Command<'a>, AllocError> {
    let mut line = clap::Command::new(alloc, "sip");
    for command in COMMANDS {
        line = line.subcommand(subcommand(alloc, command)?)?;
    }
    Ok(line)
}

// A command with the words behind it and its options.
fn subcommand<'a>(alloc: Global, command: Command) -> Result<clap::Command<'a>, AllocError> {
    let mut line = clap::Command::new(alloc, command.word());
    for name in command.operands() {
        line = line.arg(Arg::new(alloc, name).required(true))?;
    }
    for option in command.options() {
        line = line.arg(argument(alloc, option))?;
    }
    Ok(line)
}

// An option, with a value or without.
fn argument<'a>(alloc: Global, option: &'a str) -> Arg<'a> {
    let name = option.strip_prefix("--").unwrap_or(option);
    if option == "--dump" {
        return Arg::new(alloc, option)
            .long(name)
            .action(ArgAction::SetTrue);
    }
    Arg::new(alloc, option).long(name).action(ArgAction::Set)
}
