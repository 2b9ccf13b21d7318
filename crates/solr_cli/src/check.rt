ghost use Rattle.std.specs.Prelude.{◌≡◌, ◌≢◌, IfOk, IfErr, IfSome, MatchResult};
ghost use Rattle.solr_cli.specs.declared.status.Status.TheVariants as Status;
ghost use Rattle.solr_cli.specs.Answering.{IsRefusal};
ghost use Rattle.solr_cli.specs.InputRuns.{IsCountsLine, IsReadRefusal, Refuses, TellsCounts, TellsCountsFrom, TellsReads};
ghost use Rattle.solr_cli.specs.Top.{Completes, CountsReads, CountsWrites, IsCheckExplained, IsFlushed, IsSteady, WhereQuiet, WritesCounts};

use crate::answer::read_input;
use crate::reading::{ReadRefusal, read_all};
use crate::status::Status;
use crate::writing::write_status;
use field_schema::Text;
use rt_edge::{Sink, Source};
use script_counts::check_text;
use std::alloc::Global;

// The line of the counts of an input's script, or the first status that refuses it.
fn count_bytes(alloc: Global, bytes: &[u8]) -> Result<Text, Status>
    ensures { MatchResult result (TellsCounts bytes.now) (IsRefusal bytes.now) }
{
    let (_config, script) = read_input(alloc, bytes)?;
    match check_text(alloc, &script) {
        Ok(text) => Ok(text),
        Err(_) => Err(Status::NoMemory),
    }
}

// Reads an input to its end and counts what its script has.
fn count_input<S: Source>(alloc: Global, input: &mut S) -> Result<Text, Status>
    ensures reads { TellsReads (S.faults input.old) (S.faults input.new) result }
    ensures text { IfOk result IsCountsLine }
    ensures counts { TellsCountsFrom (S.left input.old) (S.left input.new) result }
    ensures refuses { IfErr result Refuses }
    ensures refused { IfSome (S.left input.old) (λ bytes. IfErr result (IsReadRefusal bytes)) }
{
    match read_all(alloc, input) {
        Ok(bytes) => count_bytes(alloc, &bytes),
        Err(ReadRefusal::Fault) => Err(Status::ReadFault),
        Err(ReadRefusal::NoMemory) => Err(Status::NoMemory),
    }
}

/// Reads an input to its end and writes the counts of its script: the clients that have a request, the lines behind
/// `%%`, the phases, and the requests. It flushes once.
///
/// It ends as a run would whose input is refused, and else with Done, or WriteFault where a write or the flush failed.
/// Only these two write. It always returns, and costs the length of the input.
pub fn check_script<S: Source, K: Sink>(alloc: Global, input: &mut S, out: &mut K) -> Status
    ensures asked { result ≢ Status.Usage }
    ensures reads { CountsReads result (S.faults input.old) (S.faults input.new) }
    ensures faults { CountsWrites result (K.faults out.old) (K.faults out.new) }
    ensures quiet { WhereQuiet result (out.new ≡ out.old) }
    ensures writes { WritesCounts result (K.held out.old) (K.held out.new) }
    ensures flushed { result ≡ Status.Done → IsFlushed (K.flushed out.old) (K.flushed out.new) }
    ensures explained { IsCheckExplained (S.left input.old) (S.left input.new) result
        (K.held out.old) (K.held out.new) }
    ensures completes { IsSteady (S.faults input.old) (S.faults input.new)
        → IsSteady (K.faults out.old) (K.faults out.new)
        → IfSome (S.left input.old) (Completes result) }
{
    match count_input(alloc, input) {
        Ok(text) => write_status(out, text.get()),
        Err(status) => status,
    }
}
