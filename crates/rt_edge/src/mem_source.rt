ghost use Rattle.std.specs.Prelude.{◌≡◌, ◌<◌, ◌↔◌, ◌++◌, [], length, take, drop, Some, IfOk, OnErr, IsErr, Contains};
ghost use Rattle.std.specs.Io.{ReadsAtMost};
ghost use Rattle.std.specs.Io.KnownBytes.{ReadConsumes};
ghost use Rattle.rt_edge.specs.Faults.{HasCause};
ghost use Rattle.rt_edge.specs.MemSource.{given_count, after_giving, after_failed_read};

use crate::fails::is_listed;
use crate::source::{Failed, Source};
use std::marker::Model;

/// Gives bytes from memory, a piece at a time, and fails at chosen reads. It is for tests.
///
/// Contracts see the bytes left, the piece, the numbers of the reads that fail, and how many reads were
/// made and failed. Both counts stand still at 2^64 - 1.
#[derive(Debug, Drop)]
pub struct MemSource {
    bytes: Vec<u8>,
    at: usize,
    piece: u32,
    fails: Vec<u32>,
    calls: u64,
    faults: u64,
}

impl Model for MemSource {
    ghost use Rattle.std.specs.Prelude.{◌<◌, ◌≤◌, length, drop};
    ghost use Rattle.rt_edge.specs.MemSource.{SourceState};

    ghost Value = { SourceState };

    ghost view = { λ s. record { left = drop s.at s.bytes.items; piece = s.piece; fails = s.fails.items; calls = s.calls; faults = s.faults } };

    ghost invariant = { λ s. (s.at ≤ length s.bytes.items) × (0 < s.piece) };
}

impl MemSource {
    /// A source of `bytes` that gives at most `piece` of them in a read, and fails exactly at the reads whose
    /// numbers, counted from 0, stand in `fails`. It takes no memory.
    pub fn new(bytes: Vec<u8>, piece: u32, fails: Vec<u32>) -> MemSource
        requires { 0 < piece }
        ensures left { result.left ≡ bytes.items }
        ensures piece { result.piece ≡ piece }
        ensures fails { result.fails ≡ fails.items }
        ensures calls { result.calls ≡ 0 }
        ensures faults { result.faults ≡ 0 }
    {
        MemSource {
            bytes,
            at: 0,
            piece,
            fails,
            calls: 0,
            faults: 0,
        }
    }
}

impl Source for MemSource {
    ghost left = { λ s. Some s.left };

    ghost faults = { λ s. s.faults };

    /// Gives the least of the piece, the length of `into` and the bytes left; what lies behind in `into` stays.
    ///
    /// `Failed` comes exactly at the reads that are to fail. It costs the bytes given and one look at each
    /// number of a read that is to fail.
    fn read(&mut self, into: &mut [u8]) -> Result<usize, Failed>
        requires { 0 < length into.old }
        ensures within { ReadsAtMost result into.new }
        ensures bytes { ReadConsumes (Some self.old.left) (Some self.new.left) result into.new }
        ensures cause { HasCause self.old.faults self.new.faults result }

        ensures fails { IsErr result ↔ Contains self.old.fails self.old.calls }
        ensures count { IfOk result (λ n. n ≡ given_count self.old (length into.old)) }
        ensures given { IfOk result (λ n. into.new ≡ take n self.old.left ++ drop n into.old) }
        ensures moved { IfOk result (λ n. self.new ≡ after_giving self.old n) }
        ensures nothing { OnErr result (into.new ≡ into.old) }
        ensures kept { OnErr result (self.new ≡ after_failed_read self.old) }
    {
        let is_failing = is_listed(&self.fails, self.calls);
        self.calls = self.calls.saturating_add(1);
        if is_failing {
            self.faults = self.faults.saturating_add(1);
            return Err(Failed);
        }
        let rest = &self.bytes[self.at..];
        let n = rest.len().min(into.len()).min(self.piece as usize);
        into[..n].copy_from_slice(&rest[..n]);
        self.at += n;
        Ok(n)
    }
}
