//! A sink over a stream of the host.

ghost use Rattle.std.specs.Prelude.{◌≡◌, None, OnOk, OnErr};
ghost use Rattle.std.specs.Io.KnownBytes.{Appends};
ghost use Rattle.sip_files.specs.Kept.{stands_alone};
ghost use Rattle.sip_files.specs.Files.{one_more};
ghost use Rattle.sip_files.specs.Sink.{Wrote};
ghost use Rattle.sip_files.specs.Stream.{AppendsPart};

use crate::fault::Failed;
use crate::sink::Sink;
use crate::writing::write_whole;
use std::io::Write;
use std::marker::Model;

/// A sink over a stream of the host. As a sink it tells no content, and it counts each error; a stream that takes
/// nothing of a piece is one.
#[derive(Drop)]
pub struct HostSink<W: Write + Drop> {
    stream: W,
    faults: u64,
}

impl<W: Write + Drop> Model for HostSink<W> {
    ghost use Rattle.sip_files.specs.Stream.{OnStream};

    ghost Value = { OnStream };

    ghost view = { λ s. record { bytes = W.contents s.stream; faults = s.faults } };
}

impl<W: Write + Drop> HostSink<W> {
    /// No write failed yet.
    pub fn new(stream: W) -> HostSink<W>
        ensures { result ≡ record { bytes = W.contents stream; faults = 0 } }
    {
        HostSink { stream, faults: 0 }
    }
}

impl<W: Write + Drop> Sink for HostSink<W> {
    ghost written = { λ _. None };

    ghost faults = { λ s. s.faults };

    ghost kept = { λ _. stands_alone };

    fn write(&mut self, bytes: &[u8]) -> Result<(), Failed>
        ensures wrote { Wrote None None self.old.faults self.new.faults stands_alone stands_alone bytes.now result }

        // The stream takes these bytes, or a first part of them.
        ensures ok_bytes { OnOk result (Appends self.old.bytes self.new.bytes bytes.now) }
        ensures err_bytes { OnErr result (AppendsPart self.old.bytes self.new.bytes bytes.now) }

        // Each failure is counted, and nothing else.
        ensures ok { OnOk result (self.new.faults ≡ self.old.faults) }
        ensures err { OnErr result (self.new.faults ≡ one_more self.old.faults) }
    {
        let answer = write_whole(&mut self.stream, bytes);
        if answer.is_err() {
            self.faults = self.faults.saturating_add(1);
        }
        answer
    }
}
