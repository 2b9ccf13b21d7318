ghost use Rattle.std.specs.Prelude.{◌≡◌, ◌<◌, ◌≤◌, ◌++◌, ◌-◌, ◌^◌, IfOk, OnOk, length};
ghost use Rattle.std.specs.Option.{option_to_list};
ghost use Rattle.run_laws.specs.Calls.{phase_behind as next_phase};
ghost use Rattle.std.specs.List.{All};
ghost use Rattle.std.specs.List.Sorted.{IsNonDecreasingBy, IsPermutation};
ghost use Rattle.script_form.specs.Ranges.{HasClient};
ghost use Rattle.client_runner.specs.RunOrder.{client_of as named_client, key_of as rising_key, turn_of, turns_from};

use field_schema::NoMemory;
use script_form::{Line, What};
use std::alloc::Global;

// A request in its turn: what rises from turn to turn, its phase, and the index of its line in the script.
#[derive(Clone, Copy)]
pub(crate) struct Turn {
    key: u64,
    pub(crate) phase: u32,
    pub(crate) index: u32,
}

// The requests of a script in the order in which they are served: phase by phase, the clients of a phase by number,
// and each client's lines in turn.
pub(crate) fn turns(alloc: Global, script: &[Line]) -> Result<Vec<Turn>, NoMemory>
    requires lines { length script.now ≤ 100000 }
    requires clients { All (λ line. HasClient 12 line.what) script.now }
    ensures same { IfOk result (λ v. IsPermutation (turns_from 0 0 script.now) v.items) }
    ensures rising { IfOk result (λ v. IsNonDecreasingBy (λ t. t.key) v.items) }
{
    let mut turns = listed(alloc, script)?;
    turns.sort_unstable_by_key(|turn| turn.key);
    Ok(turns)
}

// The requests of a script in its order.
fn listed(alloc: Global, script: &[Line]) -> Result<Vec<Turn>, NoMemory>
    requires lines { length script.now ≤ 100000 }
    requires clients { All (λ line. HasClient 12 line.what) script.now }
    ensures { IfOk result (λ v. v.items ≡ turns_from 0 0 script.now) }
{
    let mut turns = Vec::with_capacity(alloc, script.len())?;
    let mut phase: u32 = 0;
    for (index, line) in script.iter().enumerate() {
        push_turn(&mut turns, phase, index as u32, &line.what)?;
        phase = phase_behind(phase, &line.what);
    }
    Ok(turns)
}

// Adds the turn of a line, if it asks for something.
#[tactic(auto, using(crate::proofs::Clients::are_few))]
fn push_turn(turns: &mut Vec<Turn>, phase: u32, index: u32, what: &What) -> Result<(), NoMemory>
    requires phase { phase ≤ 100000 }
    requires client { HasClient 12 what.now }
    ensures { OnOk result (turns.new.items ≡ turns.old.items ++ option_to_list (turn_of phase index what.now)) }
{
    if let Some(client) = client_of(what) {
        let key = key_of(phase, client, index);
        turns.push(Turn { key, phase, index })?;
    }
    Ok(())
}

// The phase behind a line.
fn phase_behind(phase: u32, what: &What) -> u32
    requires { phase < 2 ^ 32 - 1 }
    ensures { result ≡ next_phase phase what.now }
{
    match what {
        What::PhaseEnd => phase + 1,
        _ => phase,
    }
}

// What rises from turn to turn: the phase, then the client, then the line.
fn key_of(phase: u32, client: u32, index: u32) -> u64
    requires phase { phase ≤ 100000 }
    requires client { client < 16 }
    ensures { result ≡ rising_key phase client index }
{
    (u64::from(phase) * 16 + u64::from(client)) * 4_294_967_296 + u64::from(index)
}

// The client of a line that asks for something.
fn client_of(what: &What) -> Option<u32>
    ensures { result ≡ named_client what.now }
{
    match what {
        What::Add { client, body: _ }
        | What::Delete { client, body: _ }
        | What::Query { client, body: _ }
        | What::Commit { client, body: _ } => Some(*client),
        What::PhaseEnd | What::Nothing => None,
    }
}
