//! A sink in memory.
ghost use Rattle.std.specs.Prelude.{◌≡◌, ◌<◌, ◌≤◌, [], Some, None, IfOk, length};
ghost use Rattle.std.specs.Io.KnownBytes.{WriteAppends};
ghost use Rattle.blz_links.specs.Counts.{HasCause};
ghost use Rattle.blz_resolver.specs.SinkPuts.{after_put, put_result, earliest};

use super::{Sink, SinkFault};
use std::alloc::{AllocError, Global};
use std::marker::Model;

/// A sink in memory with a limited room. Its puts are numbered from 1.
#[derive(Drop)]
pub struct MemorySink {
    bytes: Vec<u8>,
    room: usize,
    chunk: usize,
    puts: u64,
    failing: Option<u64>,
    faults: u64,
}

impl Model for MemorySink {
    ghost use Rattle.std.specs.Prelude.{◌≤◌, length, vec_capacity};
    ghost use Rattle.blz_resolver.specs.SinkPuts.{SinkValue};

    ghost Value = { SinkValue };

    ghost view = { λ s. record { bytes = s.bytes.items; room = s.room; chunk = s.chunk; puts = s.puts; failing = s.failing; faults = s.faults } };

    ghost invariant = { λ s. (1 ≤ s.chunk) × (length s.bytes.items ≤ s.room) × (s.room ≤ vec_capacity s.bytes) };
}

impl MemorySink {
    /// An empty sink that takes at most `chunk` bytes at a put, and `room` bytes in all.
    pub fn with_room(alloc: Global, room: usize, chunk: usize) -> Result<MemorySink, AllocError>
        requires { 1 ≤ chunk }
        ensures { IfOk result (λ s. s ≡ record { bytes = []; room = room; chunk = chunk; puts = 0; failing = None; faults = 0 }) }
    {
        let bytes = Vec::with_capacity(alloc, room)?;
        Ok(MemorySink {
            bytes,
            room,
            chunk,
            puts: 0,
            failing: None,
            faults: 0,
        })
    }

    /// Makes the puts from that number on fail.
    pub fn fail_at(&mut self, call: u64)
        ensures { self.new ≡ record self.old { failing = Some (earliest self.old.failing call) } }
    {
        self.failing = match self.failing {
            Some(first) => Some(first.min(call)),
            None => Some(call),
        };
    }

    /// The bytes that were taken.
    pub fn bytes(&self) -> &[u8]
        ensures { result.now ≡ self.now.bytes }
    {
        &self.bytes
    }
}

impl Sink for MemorySink {
    ghost taken = { λ s. Some s.bytes };

    ghost faults = { λ s. s.faults };

    fn put(&mut self, bytes: &[u8]) -> Result<usize, SinkFault>
        ensures most { IfOk result (λ n. n ≤ length bytes.now) }
        ensures progress { IfOk result (λ n. 0 < length bytes.now → 0 < n) }
        ensures taken { WriteAppends (Some self.old.bytes) (Some self.new.bytes) result bytes.now }
        ensures cause { HasCause self.old.faults self.new.faults result }

        ensures after { self.new ≡ after_put self.old bytes.now }
        ensures exactly { result ≡ put_result self.old bytes.now }
    {
        self.puts = self.puts.saturating_add(1);
        let fails = match self.failing {
            Some(first) => first <= self.puts,
            None => false,
        };
        let left = self.room - self.bytes.len();
        if fails || (!bytes.is_empty() && left == 0) {
            self.faults = self.faults.saturating_add(1);
            return Err(SinkFault::Failed);
        }
        let count = bytes.len().min(self.chunk.min(left));
        match self.bytes.extend_from_slice(&bytes[..count]) {
            Ok(()) => Ok(count),
            // the memory for all the room is there from the start
            Err(_) => unreachable!(),
        }
    }
}
