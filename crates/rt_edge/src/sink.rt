ghost use Rattle.std.specs.Prelude.{◌<◌, ◌≤◌, ℕ, Bool, List, Option, length, IfOk};
ghost use Rattle.std.specs.Io.KnownBytes.{Keeps, WriteAppends};
ghost use Rattle.rt_edge.specs.Faults.{HasCause};
ghost use Rattle.rt_edge.specs.Flushes.{WriteUnflushes, FlushFlushes};

use crate::source::Failed;

/// Where bytes go.
pub trait Sink {
    /// The bytes held, where the sink tells them.
    ghost held: { Self → Option (List ℕ) };

    /// Whether all the bytes held were flushed, where the sink tells it.
    ghost flushed: { Self → Option Bool };

    /// How many writes and flushes have failed. It never falls, and stands still at 2^64 - 1.
    ghost faults: { Self → ℕ };

    /// Appends the first bytes of `from`, at least one, and says how many.
    ///
    /// `Failed` comes only where the count of faults rose, and then nothing was appended; else the count stands
    /// as before. Taking nothing is a fault. It costs one call of what is written to.
    fn write(&mut self, from: &[u8]) -> Result<usize, Failed>
        requires { 0 < length from.now }
        ensures some { IfOk result (λ n. 0 < n) }
        ensures within { IfOk result (λ n. n ≤ length from.now) }
        ensures bytes { WriteAppends (held self.old) (held self.new) result from.now }
        ensures flushed { WriteUnflushes (flushed self.old) (flushed self.new) result }
        ensures cause { HasCause (faults self.old) (faults self.new) result };

    /// Passes on what is held back. The bytes held stay as they are.
    ///
    /// `Failed` comes only where the count of faults rose; else the count stands as before.
    fn flush(&mut self) -> Result<(), Failed>
        ensures bytes { Keeps (held self.old) (held self.new) }
        ensures flushed { FlushFlushes (flushed self.old) (flushed self.new) result }
        ensures cause { HasCause (faults self.old) (faults self.new) result };
}
