//! What an input gives by a command.
ghost use Rattle.std.specs.Prelude.{IfOk};
ghost use Rattle.run_rows.specs.Inputs.{IsInput};

use client_runner::{output_text, run_script, summary_text};
use field_schema::{NoMemory, Text};
use rt_edge::OpenGate;
use script_counts::check_text;
use script_form::{
    Config, ConfigRefusal, Script, ScriptRefusal, decimal_within, read_config, read_script,
    too_large,
};
use script_maker::make;
use std::alloc::Global;
use std::sync::Wait;

// What a command gives of an input, or why it is refused, as a line.
pub(crate) fn told<R: Wait>(
    rt: &R,
    alloc: Global,
    command: &str,
    input: &str,
) -> Result<Text, NoMemory> {
    match command.split_once(' ') {
        None if command == "check" => check(alloc, input.as_bytes()),
        None => run(rt, alloc, input.as_bytes(), false),
        Some(("make", count)) => made(alloc, count),
        Some(("drill", count)) => run(rt, alloc, made(alloc, count)?.get().as_bytes(), true),
        Some(_) => run(rt, alloc, input.as_bytes(), true),
    }
}

// The generator's script.
fn made(alloc: Global, count: &str) -> Result<Text, NoMemory> {
    match decimal_within(count, 1, 20_000) {
        Some(count) => make(alloc, count),
        None => line(alloc, "no count"),
    }
}

// The counts of a script.
fn check(alloc: Global, bytes: &[u8]) -> Result<Text, NoMemory> {
    match read(alloc, bytes)? {
        Input::Read(_, script) => check_text(alloc, &script),
        Input::Refused(why) => Ok(why),
    }
}

// What a run writes, or its summary.
fn run<R: Wait>(rt: &R, alloc: Global, bytes: &[u8], summary: bool) -> Result<Text, NoMemory> {
    let input = read(alloc, bytes)?;
    match input {
        Input::Read(config, script) => {
            let output = run_script(rt, alloc, &config, &script, &OpenGate)?;
            if summary {
                summary_text(alloc, &output)
            } else {
                output_text(alloc, &config, &output)
            }
        }
        Input::Refused(why) => Ok(why),
    }
}

// An input that reads, or why it does not.
enum Input {
    Read(Config, Script),
    Refused(Text),
}

fn read(alloc: Global, bytes: &[u8]) -> Result<Input, NoMemory>
    ensures { IfOk result (IsInput bytes.now) }
{
    if too_large(bytes) {
        return Ok(Input::Refused(line(alloc, "input too large")?));
    }
    let (config, begin) = match read_config(alloc, bytes) {
        Ok(read) => read,
        Err(ConfigRefusal::Fault(fault)) => {
            let (at, name) = (fault.at, fault.name.get());
            return Ok(Input::Refused(Text::new(format!(in alloc; "check {at}, {name}\n")?)));
        }
        Err(ConfigRefusal::NoMemory) => return Err(NoMemory),
    };
    match read_script(alloc, &bytes[begin..]) {
        Ok(script) => Ok(Input::Read(config, script)),
        Err(ScriptRefusal::Fault(fault)) => {
            let (number, name) = (fault.line, fault.name);
            Ok(Input::Refused(Text::new(format!(in alloc; "line {number}: {name:?}\n")?)))
        }
        Err(ScriptRefusal::NoMemory) => Err(NoMemory),
    }
}

// A line of text.
fn line(alloc: Global, text: &str) -> Result<Text, NoMemory> {
    Ok(Text::new(format!(in alloc; "{text}\n")?))
}
