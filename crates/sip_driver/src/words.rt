//! What the words of a call ask for, of what the program does today.

ghost use Rattle.std.specs.Prelude.{◌≡◌, ◌≢◌, ◌↔◌, ℕ, List, IfOk, IsErrOf, IsTrue};
ghost use Rattle.sip_grant.specs.Names.{Names};
ghost use Rattle.sip_words.specs.Requests.{compile, run};
ghost use Rattle.sip_words.specs.Seen.{running_seen, seen, setup_seen};
ghost use Rattle.sip_driver.specs.Asked.{AskFor, SpellNothing, run_of, usual_running, usual_setup};
ghost use Rattle.sip_driver.specs.Seen.{request_of};

use sip_words::{Choices, Request, Running, Setup, WordsFault, read_words};
use std::alloc::Global;

/// What words ask for.
#[derive(Clone, Copy)]
pub enum Asked<'a> {
    /// A run of a program over an input, without options.
    Run { program: &'a str, input: &'a str },
    /// The table of a program.
    Compile { program: &'a str, table: &'a str },
}

/// What words ask for; what the program doesn't do today is refused as usage.
pub fn read_asked<'a>(alloc: Global, words: &'a [String]) -> Result<Asked<'a>, WordsFault>
    ensures asks { IfOk result (λ a. AskFor words.now (request_of a)) }
    ensures nothing { IsErrOf result WordsFault.Usage → SpellNothing words.now }
{
    match read_words(alloc, words) {
        Ok(request) => built(request),
        Err(fault) => Err(fault),
    }
}

// What a request asks for, if the program does it today.
fn built<'a>(request: Request<'a>) -> Result<Asked<'a>, WordsFault>
    ensures same { IfOk result (λ a. request_of a ≡ seen request.entry) }
    ensures no_run { IsErrOf result WordsFault.Usage → (names : Names) → seen request.entry ≢ run_of names }
    ensures no_compile { IsErrOf result WordsFault.Usage → (program table : List ℕ) → seen request.entry ≢ compile program table }
    ensures no_want { IsErrOf result WordsFault.OutOfMemory → ⊥ }
{
    match request {
        Request::Run {
            program,
            input,
            setup,
            running,
        } => usual(program, input, &setup, &running),
        Request::Compile { program, table } => Ok(Asked::Compile { program, table }),
        _ => Err(WordsFault::Usage),
    }
}

// A run, if it is as where no option says anything.
fn usual<'a>(
    program: &'a str,
    input: &'a str,
    setup: &Setup<'a>,
    running: &Running<'a>,
) -> Result<Asked<'a>, WordsFault>
    ensures same { IfOk result (λ a. request_of a ≡ run program.now input.now (setup_seen setup.now) (running_seen running.now)) }
    ensures no_run { IsErrOf result WordsFault.Usage → (names : Names) → run program.now input.now (setup_seen setup.now) (running_seen running.now) ≢ run_of names }
    ensures no_want { IsErrOf result WordsFault.OutOfMemory → ⊥ }
{
    if is_usual(setup) && runs_usually(running) {
        return Ok(Asked::Run { program, input });
    }
    Err(WordsFault::Usage)
}

// Whether a machine is as where no option says anything of it.
fn is_usual(setup: &Setup<'_>) -> bool
    ensures { IsTrue result ↔ (setup_seen setup.now ≡ usual_setup) }
{
    setup.workers == 1
        && setup.servers == 1
        && setup.cache == 16
        && setup.puts == 4
        && setup.server_cache == 16
        && setup.place.is_none()
}

// Whether a run takes what it takes where no option says anything of it.
fn runs_usually(running: &Running<'_>) -> bool
    ensures { IsTrue result ↔ (running_seen running.now ≡ usual_running) }
{
    matches!(running.choices, Choices::Unchosen)
        && running.record_name == "run.rec"
        && running.store.is_none()
        && running.steps.is_none()
        && !running.dump
}
