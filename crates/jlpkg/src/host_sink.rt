//! Standard output and standard error as sinks. This is the trusted edge: no proof sees a terminal or a pipe.
//!
//! What is proved: the count of faults never falls, and it rises at each Failed. What is trusted: that the
//! writer hands on exactly the bytes that it says it took. So the sink tells no text, and no clause of this
//! file speaks of what was printed.
ghost use Rattle.std.specs.Prelude.{◌≡◌};

use pkg_world::{PutAnswer, Sink};
use std::alloc::Global;
use std::io;
use std::io::Write;

/// A writer of the machine as a sink that does not tell its text.
#[derive(Drop)]
pub struct HostSink<W: Write> {
    writer: W,
    /// How many puts failed; it stops at 2^64 - 1.
    pub faults: u64,
}

impl<W: Write> HostSink<W> {
    /// The sink over that writer, without a fault so far.
    pub fn new(writer: W) -> Self
        ensures { result.faults ≡ 0 }
    {
        HostSink { writer, faults: 0 }
    }
}

impl<W: Write> Sink for HostSink<W> {
    ghost use Rattle.std.specs.Prelude.{None};

    ghost text = { λ _. None };

    ghost faults = { λ s. s.faults };

    /// Writes the whole piece and flushes it. Any error of the writer is Failed, want of memory too, since a
    /// part of the piece may have been written by then; so Memory is never answered.
    fn put(&mut self, _alloc: Global, piece: &[u8]) -> PutAnswer {
        match write_whole(&mut self.writer, piece) {
            Ok(()) => PutAnswer::Done,
            Err(_) => {
                self.faults = self.faults.saturating_add(1);
                PutAnswer::Failed
            }
        }
    }
}

fn write_whole<W: Write>(writer: &mut W, piece: &[u8]) -> io::Result<()> {
    writer.write_all(piece)?;
    writer.flush()
}
