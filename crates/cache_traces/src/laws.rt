//! What holds of each trace, whatever the keys and values. Each function does nothing: its clauses are the laws.
ghost use Rattle.cache_traces.specs.Laws.{OwnersAreTold, TracesAreRuns};
ghost use Rattle.cache_traces.specs.StoreLaws.{StoresAreRuns};

/// The key that a seat owns is told by its own calls.
pub fn owners_are_told<K, V, N>()
    ensures { OwnersAreTold K V N }
{}

/// A trace is a run of the cache machine.
pub fn traces_are_runs<K, V, N>()
    ensures { TracesAreRuns K V N }
{}

/// The calls of a store are a run of the cache machine.
pub fn stores_are_runs<V, N: Drop>()
    ensures { StoresAreRuns V N }
{}
