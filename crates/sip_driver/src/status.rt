//! The statuses that the program ends with, each with its one line.

/// The exit status of a call.
#[derive(Clone, Copy)]
pub struct Status(pub u8);

impl Status {
    /// Everything was done.
    pub const DONE: Status = Status(0);
    /// The words aren't accepted.
    pub const USAGE: Status = Status(1);
    /// A file couldn't be read.
    pub const READ_FAULT: Status = Status(2);
    /// The text is no program, or none that runs today.
    pub const SYNTAX: Status = Status(3);
    /// The program breaks a rule.
    pub const RULE: Status = Status(4);
    /// The input is none, or none for the program.
    pub const INPUT: Status = Status(5);
    /// The output couldn't be written.
    pub const WRITE_FAULT: Status = Status(10);
    /// No memory was found.
    pub const OUT_OF_MEMORY: Status = Status(13);
}
