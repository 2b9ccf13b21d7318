//! What holds of the machine, whatever the keys and values. Each function does nothing: its clauses are the laws.
ghost use Rattle.cache_machine.specs.Laws.{RunsAreSound, HitsWhatServes, PendingAreMissing, KeepsLongestFront, StoresFirst};

/// Whatever is called, no two entries have one key, there are at most so many as the size says, they weigh at most the
/// greatest weight, and no two seats own one key. A seat owns at most one.
pub fn every_run_is_sound<K: Eq, V>()
    ensures { RunsAreSound K V K.eq }
{}

/// A key whose entry serves is never joined or owned anew.
pub fn what_serves_is_hit<K: Eq, V>()
    ensures hit { HitsWhatServes K V K.eq }
    ensures missing { PendingAreMissing K V K.eq }
{}

/// No entry goes that could stay beside those used since.
pub fn longest_front_stays<K, V>()
    ensures { KeepsLongestFront K V }
{}

/// What was stored last is the last to go.
pub fn newest_comes_first<K: Eq, V>()
    ensures { StoresFirst K V K.eq }
{}
