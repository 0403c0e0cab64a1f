//! Streams that give and take bytes in pieces, as a list of turns says.

ghost use Rattle.std.specs.Prelude.{Some};

use std::io::{self, ErrorKind, Read, Write};

/// What a stream does at a call: it gives or takes at most so many bytes, is interrupted, or fails.
#[derive(Clone, Copy)]
pub enum Turn {
    Move(usize),
    Interrupt,
    Fail,
}

/// The turns that are left; once none is, each call fails.
#[derive(Drop)]
pub struct Turns<'a> {
    left: &'a [Turn],
}

impl<'a> Turns<'a> {
    pub fn new(left: &'a [Turn]) -> Turns<'a> {
        Turns { left }
    }

    fn next(&mut self) -> io::Result<usize> {
        let [turn, rest @ ..] = self.left else {
            return Err(io::Error::from(ErrorKind::BrokenPipe));
        };
        self.left = rest;
        match *turn {
            Turn::Move(most) => Ok(most),
            Turn::Interrupt => Err(io::Error::from(ErrorKind::Interrupted)),
            Turn::Fail => Err(io::Error::from(ErrorKind::BrokenPipe)),
        }
    }
}

/// A stream that takes bytes in pieces, and keeps them.
#[derive(Drop)]
pub struct Taking<'a> {
    pub turns: Turns<'a>,
    pub kept: Vec<u8>,
}

impl<'a> Write for Taking<'a> {
    ghost contents = { λ s. Some s.kept.items };

    fn write(&mut self, bytes: &[u8]) -> io::Result<usize> {
        let count = self.turns.next()?.min(bytes.len());
        self.kept.extend_from_slice(&bytes[..count])?;
        Ok(count)
    }

    fn flush(&mut self) -> io::Result<()> {
        Ok(())
    }
}

/// A stream that gives bytes in pieces.
#[derive(Drop)]
pub struct Giving<'a> {
    pub turns: Turns<'a>,
    pub bytes: &'a [u8],
}

impl<'a> Read for Giving<'a> {
    fn read(&mut self, into: &mut [u8]) -> io::Result<usize> {
        let count = self.turns.next()?.min(into.len()).min(self.bytes.len());
        let (front, rest) = self.bytes.split_at(count);
        into[..count].copy_from_slice(front);
        self.bytes = rest;
        Ok(count)
    }
}
