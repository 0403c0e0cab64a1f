//! Requests that are within all limits.

ghost use Rattle.std.specs.Prelude.{◌≡◌, map, option_map, option_and_then};
ghost use Rattle.sip_words.specs.Asking as asking;
ghost use Rattle.sip_words.specs.Reading.{are_fine, granted};
ghost use Rattle.sip_words.specs.Seen.{settings_seen, setup_seen, choices_seen, running_seen, seen};
ghost use Rattle.sip_words.specs.Numbers.{number_in};
ghost use Rattle.sip_words.specs.Settings.{given};

use crate::command::Command;
use crate::limits::{
    CACHE, DEMO_NUMBER, PUTS, SERVER_CACHE, SERVERS, WORKERS, are_names, are_settings_of,
};
use crate::number::number_in;
use crate::request::{Choices, Request, Running, Setup};
use crate::setting::{Setting, are_once, given};

/// The request of a command, the words behind it and its settings, if all are within their limits.
pub fn granted<'a>(
    command: Command,
    operands: &[&'a str],
    settings: &[Setting<'a>],
) -> Option<Request<'a>>
    ensures { option_map seen result ≡ granted command (map (λ w. w.now) operands.now) (settings_seen settings.now) }
{
    if are_fine(command, operands, settings) {
        return request_of(command, operands, settings);
    }
    None
}

// Whether they are within their limits.
fn are_fine(command: Command, operands: &[&str], settings: &[Setting<'_>]) -> bool
    ensures { result ≡ are_fine command (map (λ w. w.now) operands.now) (settings_seen settings.now) }
{
    are_names(operands)
        && are_settings_of(command, settings)
        && are_once(settings)
        && go_together(settings)
}

// Whether settings go together: not both a schedule and a seed, and the record isn't written where the store is.
fn go_together(settings: &[Setting<'_>]) -> bool
    ensures { result ≡ asking.go_together (given (settings_seen settings.now)) }
{
    (given(settings, "--schedule").is_none() || given(settings, "--seed").is_none())
        && differs(record_name(settings), given(settings, "--store"))
}

// Whether a name differs from another one, if there is one.
fn differs(name: &str, other: Option<&str>) -> bool
    ensures { result ≡ asking.differs name.now (option_map (λ n. n.now) other.entry) }
{
    match other {
        Some(other) => name != other,
        None => true,
    }
}

// The name of the record.
fn record_name<'a>(settings: &[Setting<'a>]) -> &'a str
    ensures { result.now ≡ asking.record_of (given (settings_seen settings.now)) }
{
    given(settings, "--record").unwrap_or("run.rec")
}

// The request of a command, with as many words behind it as it takes.
fn request_of<'a>(
    command: Command,
    operands: &[&'a str],
    settings: &[Setting<'a>],
) -> Option<Request<'a>>
    ensures { option_map seen result ≡ asking.request_of command (map (λ w. w.now) operands.now) (given (settings_seen settings.now)) }
{
    match (command, operands) {
        (Command::Run, [program, input]) => Some(Request::Run {
            program,
            input,
            setup: setup_of(settings),
            running: running_of(settings),
        }),
        (Command::Check, [program, input]) => Some(Request::Check { program, input }),
        (Command::Compile, [program, table]) => Some(Request::Compile { program, table }),
        (Command::DryRun, [program, input]) => Some(Request::DryRun {
            program,
            input,
            setup: setup_of(settings),
        }),
        (Command::Replay, [program, input, record_name]) => Some(Request::Replay {
            program,
            input,
            record_name,
            setup: setup_of(settings),
        }),
        (Command::Demo, [number]) => Some(Request::Demo {
            number: DEMO_NUMBER.number(number)?,
        }),
        _ => None,
    }
}

// The setup that settings make.
fn setup_of<'a>(settings: &[Setting<'a>]) -> Setup<'a>
    ensures { setup_seen result ≡ asking.setup_of (given (settings_seen settings.now)) }
{
    Setup {
        workers: WORKERS.or_fallback(given(settings, "--workers")),
        servers: SERVERS.or_fallback(given(settings, "--servers")),
        cache: CACHE.or_fallback(given(settings, "--cache")),
        puts: PUTS.or_fallback(given(settings, "--puts")),
        server_cache: SERVER_CACHE.or_fallback(given(settings, "--servercache")),
        place: given(settings, "--place"),
    }
}

// What settings say of a run besides its setup.
fn running_of<'a>(settings: &[Setting<'a>]) -> Running<'a>
    ensures { running_seen result ≡ asking.running_of (given (settings_seen settings.now)) }
{
    Running {
        choices: choices_of(given(settings, "--schedule"), number_of(settings, "--seed")),
        record_name: record_name(settings),
        store: given(settings, "--store"),
        steps: number_of(settings, "--steps"),
        dump: given(settings, "--dump").is_some(),
    }
}

// The number to which an option is set.
fn number_of(settings: &[Setting<'_>], option: &str) -> Option<u64>
    ensures { result ≡ option_and_then number_in (given (settings_seen settings.now) option.now) }
{
    number_in(given(settings, option)?.as_bytes())
}

// The choices of a schedule's file, else those of a seed.
fn choices_of(schedule: Option<&str>, seed: Option<u64>) -> Choices<'_>
    ensures { choices_seen result ≡ asking.choices_of (option_map (λ n. n.now) schedule.entry) seed }
{
    match (schedule, seed) {
        (Some(name), _) => Choices::File(name),
        (None, Some(seed)) => Choices::Seed(seed),
        (None, None) => Choices::Unchosen,
    }
}
