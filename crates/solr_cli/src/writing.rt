ghost use Rattle.std.specs.Prelude.{◌≡◌, true, OnOk, OnErr};
ghost use Rattle.rt_edge.specs.Flushes.{IsTold};
ghost use Rattle.rt_edge.specs.Faults.{HasCause};
ghost use Rattle.std.specs.Io.KnownBytes.{Appends};
ghost use Rattle.solr_cli.specs.declared.status.Status.TheVariants as Status;
ghost use Rattle.solr_cli.specs.Top.{CountsWrites, IsFlushed, IsSteady, IsWritten, WritesText};
ghost use Rattle.solr_cli.specs.Writing.{AppendsPart, TellsFlushes};

use crate::status::Status;
use rt_edge::{Failed, Sink};

// Writes all of a text: each write is lent all that is not yet written.
pub(crate) fn write_all<K: Sink>(out: &mut K, text: &[u8]) -> Result<(), Failed>
    ensures ok { OnOk result (Appends (K.held out.old) (K.held out.new) text.now) }
    ensures err { OnErr result (AppendsPart (K.held out.old) (K.held out.new) text.now) }
    ensures flushed { OnOk result (TellsFlushes (K.flushed out.old) (K.flushed out.new)) }
    ensures cause { HasCause (K.faults out.old) (K.faults out.new) result }
{
    let mut rest = text;
    while !rest.is_empty() {
        let count = out.write(rest)?;
        rest = rest.split_at(count).1;
    }
    Ok(())
}

// Writes all of a text, and flushes once. After a fault a front of the text was written.
#[tactic(auto, using(crate::proofs::Parts::whole_kept, crate::proofs::Parts::flushed_behind, crate::proofs::Parts::cause_behind))]
pub(crate) fn write_text<K: Sink>(out: &mut K, text: &[u8]) -> Result<(), Failed>
    ensures ok { OnOk result (Appends (K.held out.old) (K.held out.new) text.now) }
    ensures err { OnErr result (AppendsPart (K.held out.old) (K.held out.new) text.now) }
    ensures flushed { OnOk result (IsTold (K.flushed out.old) (K.flushed out.new) true) }
    ensures cause { HasCause (K.faults out.old) (K.faults out.new) result }
{
    write_all(out, text)?;
    out.flush()
}

// Writes all of a text and flushes once, and tells how that ended: with Done, or with WriteFault.
pub(crate) fn write_status<K: Sink>(out: &mut K, text: &str) -> Status
    ensures ends { IsWritten result }
    ensures faults { CountsWrites result (K.faults out.old) (K.faults out.new) }
    ensures writes { WritesText result text.now (K.held out.old) (K.held out.new) }
    ensures flushed { result ≡ Status.Done → IsFlushed (K.flushed out.old) (K.flushed out.new) }
    ensures completes { IsSteady (K.faults out.old) (K.faults out.new) → result ≡ Status.Done }
{
    match write_text(out, text.as_bytes()) {
        Ok(()) => Status::Done,
        Err(_) => Status::WriteFault,
    }
}
