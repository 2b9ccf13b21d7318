ghost use Rattle.std.specs.Prelude.{◌≡◌, ◌<◌, ◌≤◌, IfOk, OnOk, length, map};
ghost use Rattle.std.specs.List.{All};
ghost use Rattle.std.specs.List.Sorted.{IsNonDecreasingBy, IsPermutation};
ghost use Rattle.script_form.specs.Ranges.{HasClient};
ghost use Rattle.searcher_core.specs.Shows.{AreSizes};
ghost use Rattle.run_laws.specs.Notes.{TellNotes};
ghost use Rattle.run_laws.specs.Lawful.{Ascends, Lawful, is_acquired_first as acquired_first};
ghost use Rattle.client_runner.specs.Histories.{GoesByHistory};
ghost use Rattle.client_runner.specs.Outputs.{output_view};
ghost use Rattle.client_runner.specs.Rooms.{HasRoom, StaysReady};
ghost use Rattle.client_runner.specs.Runs.{TakesLine};
ghost use Rattle.client_runner.specs.Sizes.{sizes_of};
ghost use Rattle.client_runner.specs.Standings.{searchers_of, standing};

use crate::order::turns;
use crate::rows::{Output, RequestRows, SearcherList, Verb};
use crate::runner::{Head, Runner};
use field_schema::NoMemory;
use rt_edge::Gate;
use script_form::{Config, Line, Script, What};
use searcher_core::CacheSizes;
use std::alloc::Global;
use std::sync::Wait;

// The caller that serves the first searcher's listeners: the first behind the clients.
const FIRST_WARMER: u32 = 13;

impl Runner {
    // Serves the request of a line in its turn, if the line asks for something.
    fn step<R: Wait, G: Gate>(
        &mut self,
        rt: &R,
        alloc: Global,
        config: &Config,
        gate: &G,
        phase: u32,
        line: &Line,
    ) -> Result<(), NoMemory>
        requires warming { 0 < config.now.max_warming }
        requires ready { HasRoom 1 self.old }
        ensures follows { OnOk result (TakesLine config.now phase line.now (standing self.old) (standing self.new)) }
        ensures ready { OnOk result (StaysReady self.old self.new) }
    {
        let (client, verb, body) = match &line.what {
            What::Add { client, body } => (*client, Verb::Add, body),
            What::Delete { client, body } => (*client, Verb::Delete, body),
            What::Query { client, body } => (*client, Verb::Query, body),
            What::Commit { client, body } => (*client, Verb::Commit, body),
            What::PhaseEnd | What::Nothing => return Ok(()),
        };
        let head = Head {
            phase,
            client,
            line: line.number,
            verb,
        };
        self.serve(rt, alloc, config, gate, head, body.get())
    }

    // What the run gives: its rows in the order of the script, and its searchers.
    fn finish(self) -> Result<Output, NoMemory>
        ensures rows { IfOk result (λ o. IsPermutation (standing self).rows (output_view o).requests) }
        ensures sorted { IfOk result (λ o. IsNonDecreasingBy (λ r. r.line) (output_view o).requests) }
        ensures searchers { IfOk result (λ o. (output_view o).searchers ≡ searchers_of (standing self)) }
    {
        let Runner {
            index: _,
            place: _,
            mut rows,
            mut earlier,
            current,
        } = self;
        earlier.push(current)?;
        rows.sort_unstable_by_key(|row| row.line);
        Ok(Output {
            requests: RequestRows::new(rows),
            searchers: SearcherList::new(earlier),
        })
    }
}

// The sizes of each searcher's caches.
fn sizes_of(config: &Config) -> CacheSizes
    ensures { result ≡ sizes_of config.now }
{
    CacheSizes {
        filters: config.filter_size,
        results: config.result_size,
        documents: config.document_size,
        window: config.window,
        most_docs: config.most_docs,
    }
}

// Whether the first searcher serves before its listeners have run, and has some.
fn is_acquired_first(config: &Config) -> bool
    ensures { result ≡ acquired_first config.now }
{
    config.cold && !config.first.as_slice().is_empty()
}

/// Runs the script: phase by phase, the clients of a phase one after another by number, each client's lines in turn.
///
/// Each searcher is warmed from the caches of the one before it, serves the requests of `newSearcher`, and is registered, in the
/// commit that opens it. The first one serves the requests of `firstSearcher` before the first line. Where it serves before its
/// listeners have run (`useColdSearcher`) and there are some, its first ticket is theirs. Where memory is wanting for a request, it has
/// the 500 reply, takes no place, and all else stands as before; `NoMemory` comes where not even that reply could be
/// had. The gate is told of the moments of the queries' look-ups. It costs, for each add and each delete by unique key, the postings of that key and a look among the pending
/// documents; for each commit a pass over what was added, a sort of its keys, a step for each 64 documents, and now
/// and then the merge of segments; for each query and each delete by query its evaluation; and a sort of the rows by
/// line.
pub fn run_script<R: Wait, G: Gate>(
    rt: &R,
    alloc: Global,
    config: &Config,
    script: &Script,
    gate: &G,
) -> Result<Output, NoMemory>
    requires sizes { AreSizes (sizes_of config.now) }
    requires warming { 0 < config.now.max_warming }
    requires lines { length script.now ≤ 100000 }
    requires numbers { Ascends (map (λ line. line.number) script.now) }
    requires clients { All (λ line. HasClient 12 line.what) script.now }
    ensures agrees { IfOk result (λ o. GoesByHistory config.now script.now (output_view o)) }
    ensures lawful { IfOk result (λ o. Lawful config.now script.now (output_view o)) }
    ensures notes { IfOk result (λ o. TellNotes config.now script.now (output_view o)) }
{
    let turns = turns(alloc, script.get())?;
    let listened = is_acquired_first(config);
    let mut runner = Runner::new(alloc, sizes_of(config), listened)?;
    let first = config.first.as_slice();
    runner.index.listen(rt, alloc, first, gate, FIRST_WARMER);
    for turn in &turns {
        let line = &script.get()[turn.index as usize];
        runner.step(rt, alloc, config, gate, turn.phase, line)?;
    }
    runner.finish()
}
