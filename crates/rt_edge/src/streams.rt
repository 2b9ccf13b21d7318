ghost use Rattle.std.specs.Prelude.{◌≡◌, ◌↔◌, None, IsErr};
ghost use Rattle.rt_edge.specs.Faults.{HasCause};

use crate::sink::Sink;
use crate::source::{Failed, Source};
use std::io;
use std::io::{Read, Stdin, Stdout, Write};
use std::marker::Model;

/// A source over a reader of std, which tells the bytes that the reader does.
///
/// Contracts see the reader, and how many reads have failed: a count that stands still at 2^64 - 1.
#[derive(Drop)]
pub struct Reading<R: Read> {
    inner: R,
    faults: u64,
}

impl<R: Read> Model for Reading<R> {
    ghost use Rattle.rt_edge.specs.Counted.{Counted};

    ghost Value = { Counted R };

    ghost view = { λ s. record { inner = s.inner; faults = s.faults } };
}

/// A source over the standard input, which tells no bytes.
pub type StdSource = Reading<Stdin>;

impl<R: Read> Reading<R> {
    /// A source over the reader. It takes no memory.
    pub fn new(input: R) -> Reading<R>
        ensures inner { result.inner ≡ input }
        ensures faults { result.faults ≡ 0 }
    {
        Reading {
            inner: input,
            faults: 0,
        }
    }
}

impl<R: Read> Source for Reading<R> {
    ghost left = { λ s. R.remaining s.inner };

    ghost faults = { λ s. s.faults };

    /// `Failed` where the reader reports an error, an interrupted call among them. It costs one call of it.
    fn read(&mut self, into: &mut [u8]) -> Result<usize, Failed> {
        match self.inner.read(into) {
            Ok(n) => Ok(n),
            Err(_) => {
                self.faults = self.faults.saturating_add(1);
                Err(Failed)
            }
        }
    }
}

/// A sink over a writer of std, which tells the bytes that the writer does. Of flushes std's writers tell nothing.
///
/// Contracts see the writer, and how many writes and flushes have failed: a count that stands still at 2^64 - 1.
#[derive(Drop)]
pub struct Writing<W: Write> {
    inner: W,
    faults: u64,
}

impl<W: Write> Model for Writing<W> {
    ghost use Rattle.rt_edge.specs.Counted.{Counted};

    ghost Value = { Counted W };

    ghost view = { λ s. record { inner = s.inner; faults = s.faults } };
}

/// A sink over the standard output, which tells no bytes.
pub type StdSink = Writing<Stdout>;

impl<W: Write> Writing<W> {
    /// A sink over the writer. It takes no memory.
    pub fn new(output: W) -> Writing<W>
        ensures inner { result.inner ≡ output }
        ensures faults { result.faults ≡ 0 }
    {
        Writing {
            inner: output,
            faults: 0,
        }
    }
}

impl<W: Write> Sink for Writing<W> {
    ghost held = { λ s. W.contents s.inner };

    ghost flushed = { λ _. None };

    ghost faults = { λ s. s.faults };

    /// `Failed` where the writer reports an error, an interrupted call among them, or takes nothing. It costs one
    /// call of it.
    fn write(&mut self, from: &[u8]) -> Result<usize, Failed> {
        match self.inner.write(from) {
            Ok(n) if 0 < n => Ok(n),
            _ => {
                self.faults = self.faults.saturating_add(1);
                Err(Failed)
            }
        }
    }

    /// `Failed` where the writer reports an error.
    fn flush(&mut self) -> Result<(), Failed> {
        let answer = self.inner.flush();
        flush_told(&mut self.faults, answer)
    }
}

// What a writer's flush answered, with its fault counted.
fn flush_told(faults: &mut u64, answer: io::Result<()>) -> Result<(), Failed>
    ensures told { IsErr result ↔ IsErr answer }
    ensures cause { HasCause faults.old faults.new result }
{
    match answer {
        Ok(()) => Ok(()),
        Err(_) => {
            *faults = faults.saturating_add(1);
            Err(Failed)
        }
    }
}
