//! Requests.

/// How many workers and servers there are, how many blocks and puts they hold, and where blocks lie.
#[derive(Clone, Copy)]
pub struct Setup<'a> {
    pub workers: u32,
    pub servers: u32,
    /// The blocks that a worker caches.
    pub cache: u32,
    /// The puts of a worker that may be unacknowledged.
    pub puts: u32,
    /// The blocks that a server caches.
    pub server_cache: u32,
    /// The file that says where blocks lie.
    pub place: Option<&'a str>,
}

/// Where the choices of a run come from.
#[derive(Clone, Copy)]
pub enum Choices<'a> {
    Unchosen,
    /// The file of a schedule.
    File(&'a str),
    /// The number from which they are made.
    Seed(u64),
}

/// What a run takes and leaves besides its setup.
#[derive(Clone, Copy)]
pub struct Running<'a> {
    pub choices: Choices<'a>,
    pub record_name: &'a str,
    /// The store's file; without one it is in memory.
    pub store: Option<&'a str>,
    /// The most steps, if there is a limit.
    pub steps: Option<u64>,
    /// Whether the result is written.
    pub dump: bool,
}

/// A command with its files and what its options say.
#[derive(Clone, Copy)]
pub enum Request<'a> {
    Run {
        program: &'a str,
        input: &'a str,
        setup: Setup<'a>,
        running: Running<'a>,
    },
    Check {
        program: &'a str,
        input: &'a str,
    },
    Compile {
        program: &'a str,
        table: &'a str,
    },
    DryRun {
        program: &'a str,
        input: &'a str,
        setup: Setup<'a>,
    },
    Replay {
        program: &'a str,
        input: &'a str,
        record_name: &'a str,
        setup: Setup<'a>,
    },
    Demo {
        number: u32,
    },
}
