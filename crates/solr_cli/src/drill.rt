ghost use Rattle.std.specs.Prelude.{◌≡◌, MatchResult};
ghost use Rattle.script_maker.specs.Laws.{IsCount};
ghost use Rattle.script_maker.specs.Made.{made};
ghost use Rattle.client_runner.specs.Outputs.{output_view};
ghost use Rattle.solr_cli.specs.declared.status.Status.TheVariants as Status;
ghost use Rattle.solr_cli.specs.Answering.{IsAnswer};

use crate::answer::answer;
use crate::status::Status;
use client_runner::Output;
use rt_edge::Gate;
use script_form::Config;
use script_maker::make;
use std::alloc::Global;
use std::sync::Wait;

// Runs the generator's script of `n` documents. It reads, so nothing but memory can be wanting.
pub(crate) fn run_made<R: Wait, G: Gate>(
    rt: &R,
    alloc: Global,
    n: u32,
    gate: &G,
) -> Result<(Config, Output), Status>
    requires count { IsCount n }
    ensures { MatchResult result (λ r. IsAnswer (made n) r.0 (output_view r.1)) (λ s. s ≡ Status.NoMemory) }
{
    match make(alloc, n) {
        Ok(text) => answer(rt, alloc, text.get().as_bytes(), gate),
        Err(_) => Err(Status::NoMemory),
    }
}
