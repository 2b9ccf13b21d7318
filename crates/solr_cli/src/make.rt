ghost use Rattle.std.specs.Prelude.{◌≡◌};
ghost use Rattle.script_maker.specs.Laws.{IsCount};
ghost use Rattle.script_maker.specs.Made.{made};
ghost use Rattle.solr_cli.specs.declared.status.Status.TheVariants as Status;
ghost use Rattle.solr_cli.specs.Top.{CountsWrites, EndsWriting, IsDoneOrWanting, IsFlushed, IsSteady, WhereQuiet, WritesText};

use crate::status::Status;
use crate::writing::write_status;
use rt_edge::Sink;
use script_maker::make;
use std::alloc::Global;

/// Writes the generator's script of `n` documents, 1 to 20,000, and flushes once.
///
/// It ends with Done, WriteFault where a write or the flush failed, or NoMemory, and then nothing was written. It always
/// returns, and costs the length of the script.
pub fn make_script<K: Sink>(alloc: Global, n: u32, out: &mut K) -> Status
    requires count { IsCount n }
    ensures ends { EndsWriting result }
    ensures faults { CountsWrites result (K.faults out.old) (K.faults out.new) }
    ensures quiet { WhereQuiet result (out.new ≡ out.old) }
    ensures writes { WritesText result (made n) (K.held out.old) (K.held out.new) }
    ensures flushed { result ≡ Status.Done → IsFlushed (K.flushed out.old) (K.flushed out.new) }
    ensures completes { IsSteady (K.faults out.old) (K.faults out.new) → IsDoneOrWanting result }
{
    match make(alloc, n) {
        Ok(text) => write_status(out, text.get()),
        Err(_) => Status::NoMemory,
    }
}
