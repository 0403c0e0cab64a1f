//! Commands.

ghost use Rattle.std.specs.Prelude.{◌≡◌, length, map};
ghost use Rattle.sip_words.specs.Commands as spec;
ghost use Rattle.sip_words.specs.Reading.{command_named};

/// What can be asked for.
#[derive(Clone, Copy)]
pub enum Command {
    Run,
    Check,
    Compile,
    DryRun,
    Replay,
    Demo,
}

const SETUP: [&str; 6] = [
    "--workers",
    "--servers",
    "--cache",
    "--puts",
    "--servercache",
    "--place",
];

const RUN: [&str; 12] = [
    "--workers",
    "--servers",
    "--cache",
    "--puts",
    "--servercache",
    "--place",
    "--schedule",
    "--seed",
    "--record",
    "--store",
    "--steps",
    "--dump",
];

const NONE: [&str; 0] = [];

const PROGRAM_AND_INPUT: [&str; 2] = ["program", "input"];

const PROGRAM_AND_TABLE: [&str; 2] = ["program", "table"];

const WITH_RECORD: [&str; 3] = ["program", "input", "record"];

const NUMBER: [&str; 1] = ["number"];

impl Command {
    /// The command that a word is.
    pub fn named(word: &str) -> Option<Command>
        ensures { result ≡ command_named word.now }
    {
        match word {
            "run" => Some(Command::Run),
            "check" => Some(Command::Check),
            "compile" => Some(Command::Compile),
            "dryrun" => Some(Command::DryRun),
            "replay" => Some(Command::Replay),
            "demo" => Some(Command::Demo),
            _ => None,
        }
    }

    /// The word that it is.
    pub fn word<'a>(self) -> &'a str
        ensures { result.now ≡ spec.word_of self }
    {
        match self {
            Command::Run => "run",
            Command::Check => "check",
            Command::Compile => "compile",
            Command::DryRun => "dryrun",
            Command::Replay => "replay",
            Command::Demo => "demo",
        }
    }

    /// What the words behind it are, before the options.
    pub fn operands<'a>(self) -> &'a [&'a str]
        ensures { length result.now ≡ spec.operands_of self }
    {
        match self {
            Command::Run | Command::Check | Command::DryRun => &PROGRAM_AND_INPUT,
            Command::Compile => &PROGRAM_AND_TABLE,
            Command::Replay => &WITH_RECORD,
            Command::Demo => &NUMBER,
        }
    }

    /// Its options.
    pub fn options<'a>(self) -> &'a [&'a str]
        ensures { map (λ o. o.now) result.now ≡ spec.options_of self }
    {
        match self {
            Command::Run => &RUN,
            Command::DryRun | Command::Replay => &SETUP,
            Command::Check | Command::Compile | Command::Demo => &NONE,
        }
    }
}
