ghost use Rattle.std.specs.Prelude.{◌≡◌, ◌<◌, ◌≤◌, ◌↔◌, true, List, [], length, take, Some, IfOk, OnErr, IsOk, IsErr};
ghost use Rattle.std.specs.Io.KnownBytes.{Keeps, WriteAppends};
ghost use Rattle.rt_edge.specs.Faults.{HasCause};
ghost use Rattle.rt_edge.specs.Flushes.{WriteUnflushes, FlushFlushes};
ghost use Rattle.rt_edge.specs.MemSink.{IsFailing, taken_count, after_taking, after_failed_write, after_flush};

use crate::NoMemory;
use crate::fails::is_listed;
use crate::sink::Sink;
use crate::source::Failed;
use std::alloc::Global;
use std::marker::Model;

/// Holds bytes in memory, takes a piece at a time, and fails at chosen writes. It is for tests.
///
/// Contracts see the bytes held, the room, the piece, the numbers of the writes that fail, how many writes
/// were made and failed, and whether a flush came after the last. Both counts stand still at 2^64 - 1.
#[derive(Debug, Drop)]
pub struct MemSink {
    bytes: Vec<u8>,
    room: u32,
    piece: u32,
    fails: Vec<u32>,
    calls: u64,
    faults: u64,
    flushed: bool,
}

impl Model for MemSink {
    ghost use Rattle.std.specs.Prelude.{◌<◌, ◌≤◌, length, vec_capacity};
    ghost use Rattle.rt_edge.specs.MemSink.{SinkState};

    ghost Value = { SinkState };

    ghost view = { λ s. record { held = s.bytes.items; room = s.room; piece = s.piece; fails = s.fails.items; calls = s.calls; faults = s.faults; flushed = s.flushed } };

    ghost invariant = { λ s. (length s.bytes.items ≤ s.room) × (s.room ≤ vec_capacity s.bytes) × (0 < s.piece) };
}

impl MemSink {
    /// An empty sink for `room` bytes that takes at most `piece` of them in a write, and fails at the writes
    /// whose numbers, counted from 0, stand in `fails`.
    ///
    /// It takes the memory for `room` bytes, and its later calls take none. `NoMemory` where there is none.
    pub fn new(alloc: Global, room: u32, piece: u32, fails: Vec<u32>) -> Result<MemSink, NoMemory>
        requires { 0 < piece }
        ensures succeeds { room ≡ 0 → IsOk result }
        ensures held { IfOk result (λ sink. sink.held ≡ []) }
        ensures room { IfOk result (λ sink. sink.room ≡ room) }
        ensures piece { IfOk result (λ sink. sink.piece ≡ piece) }
        ensures fails { IfOk result (λ sink. sink.fails ≡ fails.items) }
        ensures calls { IfOk result (λ sink. sink.calls ≡ 0) }
        ensures faults { IfOk result (λ sink. sink.faults ≡ 0) }
        ensures flushed { IfOk result (λ sink. sink.flushed ≡ true) }
    {
        let Ok(bytes) = Vec::with_capacity(alloc, room as usize) else {
            return Err(NoMemory);
        };
        Ok(MemSink {
            bytes,
            room,
            piece,
            fails,
            calls: 0,
            faults: 0,
            flushed: true,
        })
    }

    /// The bytes that were written.
    pub fn bytes(&self) -> &[u8]
        ensures { result.now ≡ self.now.held }
    {
        &self.bytes
    }
}

impl Sink for MemSink {
    ghost held = { λ s. Some s.held };

    ghost flushed = { λ s. Some s.flushed };

    ghost faults = { λ s. s.faults };

    /// Takes the least of the piece, the length of `from` and the room left.
    ///
    /// `Failed` comes exactly at the writes that are to fail, and where no room is left. It takes no memory,
    /// and costs the bytes taken and one look at each number of a write that is to fail.
    fn write(&mut self, from: &[u8]) -> Result<usize, Failed>
        requires { 0 < length from.now }
        ensures some { IfOk result (λ n. 0 < n) }
        ensures within { IfOk result (λ n. n ≤ length from.now) }
        ensures bytes { WriteAppends (Some self.old.held) (Some self.new.held) result from.now }
        ensures flushed { WriteUnflushes (Some self.old.flushed) (Some self.new.flushed) result }
        ensures cause { HasCause self.old.faults self.new.faults result }

        ensures fails { IsErr result ↔ IsFailing self.old }
        ensures count { IfOk result (λ n. n ≡ taken_count self.old (length from.now)) }
        ensures taken { IfOk result (λ n. self.new ≡ after_taking self.old (take n from.now)) }
        ensures kept { OnErr result (self.new ≡ after_failed_write self.old) }
    {
        let is_failing = is_listed(&self.fails, self.calls);
        self.calls = self.calls.saturating_add(1);
        let left = self.room as usize - self.bytes.len();
        if is_failing || left == 0 {
            self.faults = self.faults.saturating_add(1);
            return Err(Failed);
        }
        let n = from.len().min(left).min(self.piece as usize);
        if self.bytes.extend_from_slice(&from[..n]).is_err() {
            unreachable!();
        }
        self.flushed = false;
        Ok(n)
    }

    /// Has nothing to pass on, and never fails.
    fn flush(&mut self) -> Result<(), Failed>
        ensures bytes { Keeps (Some self.old.held) (Some self.new.held) }
        ensures flushed { FlushFlushes (Some self.old.flushed) (Some self.new.flushed) result }
        ensures cause { HasCause self.old.faults self.new.faults result }

        ensures succeeds { IsOk result }
        ensures marked { self.new ≡ after_flush self.old }
    {
        self.flushed = true;
        Ok(())
    }
}
