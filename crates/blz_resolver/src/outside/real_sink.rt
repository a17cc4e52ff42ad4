//! A sink over a writer.
ghost use Rattle.std.specs.Prelude.{◌≡◌, None};

use super::{Sink, SinkFault};
use std::io::Write;

/// A sink over any writer. It does not tell what was taken.
#[derive(Drop)]
pub struct RealSink<W> {
    writer: W,
    faults: u64,
}

impl<W: Write> RealSink<W> {
    /// A sink over this writer.
    pub fn new(writer: W) -> RealSink<W>
        ensures { result.faults ≡ 0 }
    {
        RealSink { writer, faults: 0 }
    }
}

impl<W: Write> Sink for RealSink<W> {
    ghost taken = { λ _. None };

    ghost faults = { λ s. s.faults };

    fn put(&mut self, bytes: &[u8]) -> Result<usize, SinkFault> {
        if let Ok(count) = self.writer.write(bytes)
            && (count > 0 || bytes.is_empty())
        {
            return Ok(count);
        }
        self.faults = self.faults.saturating_add(1);
        Err(SinkFault::Failed)
    }
}
