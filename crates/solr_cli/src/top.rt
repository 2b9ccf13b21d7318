ghost use Rattle.std.specs.Prelude.{◌≡◌, ◌≢◌, ◌↔◌, false, true, None, IfOk, IfErr, IfSome, map, string_bytes};
ghost use Rattle.script_maker.specs.Laws.{IsCount};
ghost use Rattle.client_runner.specs.Outputs.{output_view};
ghost use Rattle.solr_cli.specs.declared.status.Status.TheVariants as Status;
ghost use Rattle.solr_cli.specs.InputRuns.{IsReadRefusal, RanFrom, Refuses, TellsReads};
ghost use Rattle.solr_cli.specs.Commands.{command_of, is_made, reads_input};
ghost use Rattle.solr_cli.specs.Top.{Completes, CountsReads, CountsWrites, EndsWriting, ExplainsAll, ExplainsDrill, IsDoneOrWanting, IsExplained, IsFlushed, IsKept, IsSteady, WhereQuiet, Writes, WritesOutput, told_text};

use crate::answer::answer;
use crate::check::check_script;
use crate::command::{Command, read_words};
use crate::drill::run_made;
use crate::make::make_script;
use crate::reading::{ReadRefusal, read_all};
use crate::status::Status;
use crate::writing::write_status;
use client_runner::{Output, output_text, summary_text};
use field_schema::{NoMemory, Text};
use rt_edge::{Gate, Sink, Source};
use script_form::Config;
use std::alloc::Global;
use std::sync::Wait;

/// How a command ended, and the output whose text was written.
#[derive(Debug, Drop)]
pub struct Ran {
    pub status: Status,
    /// Of a run or a drill, where its text or its summary was written or a write failed; else nothing.
    pub output: Option<Output>,
}

// Reads an input to its end and runs it.
fn run_input<R: Wait, S: Source, G: Gate>(
    rt: &R,
    alloc: Global,
    input: &mut S,
    gate: &G,
) -> Result<(Config, Output), Status>
    ensures reads { TellsReads (S.faults input.old) (S.faults input.new) result }
    ensures ran { RanFrom (S.left input.old) (S.left input.new) result }
    ensures refuses { IfErr result Refuses }
    ensures refused { IfSome (S.left input.old) (λ bytes. IfErr result (IsReadRefusal bytes)) }
{
    match read_all(alloc, input) {
        Ok(bytes) => answer(rt, alloc, &bytes, gate),
        Err(ReadRefusal::Fault) => Err(Status::ReadFault),
        Err(ReadRefusal::NoMemory) => Err(Status::NoMemory),
    }
}

// The summary of an output, or its text.
fn text_of(alloc: Global, config: &Config, output: &Output, summary: bool) -> Result<Text, NoMemory>
    ensures { IfOk result (λ t. t ≡ told_text summary (output_view output.now)) }
{
    if summary {
        summary_text(alloc, output)
    } else {
        output_text(alloc, config, output)
    }
}

// Writes what is told of an output.
fn write_output<K: Sink>(
    alloc: Global,
    config: &Config,
    output: Output,
    summary: bool,
    out: &mut K,
) -> Ran
    ensures ends { EndsWriting result.status }
    ensures output { IsKept output result }
    ensures faults { CountsWrites result.status (K.faults out.old) (K.faults out.new) }
    ensures quiet { WhereQuiet result.status (out.new ≡ out.old) }
    ensures writes { WritesOutput summary result.status result.output (K.held out.old) (K.held out.new) }
    ensures flushed { result.status ≡ Status.Done → IsFlushed (K.flushed out.old) (K.flushed out.new) }
    ensures completes { IsSteady (K.faults out.old) (K.faults out.new) → IsDoneOrWanting result.status }
{
    let Ok(text) = text_of(alloc, config, &output, summary) else {
        return Ran {
            status: Status::NoMemory,
            output: None,
        };
    };
    Ran {
        status: write_status(out, text.get()),
        output: Some(output),
    }
}

// Runs an input and writes its output, or its summary.
fn run_and_write<R: Wait, S: Source, K: Sink, G: Gate>(
    rt: &R,
    alloc: Global,
    input: &mut S,
    out: &mut K,
    gate: &G,
    summary: bool,
) -> Ran
    ensures asked { result.status ≢ Status.Usage }
    ensures reads { CountsReads result.status (S.faults input.old) (S.faults input.new) }
    ensures faults { CountsWrites result.status (K.faults out.old) (K.faults out.new) }
    ensures quiet { WhereQuiet result.status (out.new ≡ out.old) }
    ensures writes { WritesOutput summary result.status result.output (K.held out.old) (K.held out.new) }
    ensures flushed { result.status ≡ Status.Done → IsFlushed (K.flushed out.old) (K.flushed out.new) }
    ensures explained { IsExplained (S.left input.old) (S.left input.new) result.status result.output }
    ensures completes { IsSteady (S.faults input.old) (S.faults input.new)
        → IsSteady (K.faults out.old) (K.faults out.new)
        → IfSome (S.left input.old) (Completes result.status) }
{
    match run_input(rt, alloc, input, gate) {
        Ok((config, output)) => write_output(alloc, &config, output, summary, out),
        Err(status) => Ran {
            status,
            output: None,
        },
    }
}

// Runs the generator's script of `n` documents and writes its summary.
fn drill<R: Wait, K: Sink, G: Gate>(rt: &R, alloc: Global, n: u32, out: &mut K, gate: &G) -> Ran
    requires count { IsCount n }
    ensures asked { result.status ≢ Status.Usage }
    ensures faults { CountsWrites result.status (K.faults out.old) (K.faults out.new) }
    ensures quiet { WhereQuiet result.status (out.new ≡ out.old) }
    ensures writes { WritesOutput true result.status result.output (K.held out.old) (K.held out.new) }
    ensures flushed { result.status ≡ Status.Done → IsFlushed (K.flushed out.old) (K.flushed out.new) }
    ensures explained { ExplainsDrill n result.status result.output }
    ensures completes { IsSteady (K.faults out.old) (K.faults out.new) → IsDoneOrWanting result.status }
{
    match run_made(rt, alloc, n, gate) {
        Ok((config, output)) => write_output(alloc, &config, output, true, out),
        Err(status) => Ran {
            status,
            output: None,
        },
    }
}

/// Does what the words of a command line ask for. `run` reads the input to its end, runs its script and writes a line
/// of JSON for each request and each searcher; `run --summary` writes the summary of these lines. `check` reads the input
/// to its end and writes the counts of its script. `make N` reads nothing and writes the generator's script of N documents;
/// `drill N` runs that script and writes its summary.
///
/// The words are those after the program's name. Statuses are looked at in this order: Usage, ReadFault, TooLarge,
/// BadConfig, BadLine, want of memory in the run, WriteFault; want of memory may also come earlier. Only Done and
/// WriteFault write, each write is lent all that is not yet written, and then `flush` is called once. Reading stops
/// one byte over the greatest input. It costs the lengths of the input and of what is written, and the run.
pub fn run_top<R: Wait, S: Source, K: Sink, G: Gate>(
    rt: &R,
    alloc: Global,
    words: &[String],
    input: &mut S,
    out: &mut K,
    gate: &G,
) -> Ran
    // The words alone tell whether there is a command; without one, and by one that makes a script, nothing is read.
    ensures usage { (result.status ≡ Status.Usage) ↔ (command_of (map string_bytes words.now) ≡ None) }
    ensures unread { reads_input (command_of (map string_bytes words.now)) ≡ false → input.new ≡ input.old }

    // A fault is told exactly where the outside failed in this call: else the counts of faults are as before.
    ensures reads { CountsReads result.status (S.faults input.old) (S.faults input.new) }
    ensures faults { CountsWrites result.status (K.faults out.old) (K.faults out.new) }

    // What is written is the command's text, of a run that of the output which is handed back, or a front of it.
    ensures quiet { WhereQuiet result.status (out.new ≡ out.old) }
    ensures writes { Writes (command_of (map string_bytes words.now)) result.status result.output
        (K.held out.old) (K.held out.new) }
    ensures flushed { result.status ≡ Status.Done → IsFlushed (K.flushed out.old) (K.flushed out.new) }

    // Where the source tells its bytes, they explain the status: the run of an input that reads goes by one legal
    // history of the registry, and is lawful; a check tells the counts of the script that the bytes read to. A drill tells
    // such a run of the generator's script.
    ensures explained { ExplainsAll (command_of (map string_bytes words.now))
        (S.left input.old) (S.left input.new) result (K.held out.old) (K.held out.new) }

    // An input that reads is run or counted, and a script is made, unless memory was wanting or the outside failed.
    ensures completes { reads_input (command_of (map string_bytes words.now)) ≡ true
        → IsSteady (S.faults input.old) (S.faults input.new)
        → IsSteady (K.faults out.old) (K.faults out.new)
        → IfSome (S.left input.old) (Completes result.status) }
    ensures makes { is_made (command_of (map string_bytes words.now)) ≡ true
        → IsSteady (K.faults out.old) (K.faults out.new) → IsDoneOrWanting result.status }
{
    let Some(command) = read_words(words) else {
        return Ran {
            status: Status::Usage,
            output: None,
        };
    };
    match command {
        Command::Run { summary } => run_and_write(rt, alloc, input, out, gate, summary),
        Command::Check => Ran {
            status: check_script(alloc, input, out),
            output: None,
        },
        Command::Make(count) => Ran {
            status: make_script(alloc, count, out),
            output: None,
        },
        Command::Drill(count) => drill(rt, alloc, count, out, gate),
    }
}
