ghost use Rattle.std.specs.Prelude.{◌≡◌, MatchResult};
ghost use Rattle.client_runner.specs.Outputs.{output_view};
ghost use Rattle.solr_cli.specs.Answering.{IsAnswer, IsRefusal, ReadsTo};

use crate::status::Status;
use client_runner::{Output, run_script};
use field_schema::NoMemory;
use rt_edge::Gate;
use script_form::{
    Config, ConfigRefusal, Script, ScriptRefusal, read_config, read_script, too_large,
};
use std::alloc::Global;
use std::sync::Wait;

// The configuration and the script of an input, or the first status that refuses it.
pub(crate) fn read_input(alloc: Global, bytes: &[u8]) -> Result<(Config, Script), Status>
    ensures { MatchResult result (λ r. ReadsTo bytes.now r.0 r.1) (IsRefusal bytes.now) }
{
    if too_large(bytes) {
        return Err(Status::TooLarge);
    }
    let (config, begin) = match read_config(alloc, bytes) {
        Ok(read) => read,
        Err(ConfigRefusal::Fault(fault)) => {
            return Err(Status::BadConfig {
                at: fault.at,
                name: fault.name,
            });
        }
        Err(ConfigRefusal::NoMemory) => return Err(Status::NoMemory),
    };
    match read_script(alloc, &bytes[begin..]) {
        Ok(script) => Ok((config, script)),
        Err(ScriptRefusal::Fault(fault)) => Err(Status::BadLine {
            line: fault.line,
            name: fault.name,
        }),
        Err(ScriptRefusal::NoMemory) => Err(Status::NoMemory),
    }
}

// Runs an input: its configuration and its output, or the first status that refuses it.
pub(crate) fn answer<R: Wait, G: Gate>(
    rt: &R,
    alloc: Global,
    bytes: &[u8],
    gate: &G,
) -> Result<(Config, Output), Status>
    ensures { MatchResult result (λ r. IsAnswer bytes.now r.0 (output_view r.1)) (IsRefusal bytes.now) }
{
    let (config, script) = read_input(alloc, bytes)?;
    match run_script(rt, alloc, &config, &script, gate) {
        Ok(output) => Ok((config, output)),
        Err(NoMemory) => Err(Status::NoMemory),
    }
}
