//! The machine is tried on small caches: each call is allowed the answer that is right and refused those that are
//! wrong in one thing. Each function does nothing: its clauses are what the trial shows.
ghost use Rattle.std.specs.Prelude.{◌∷◌, []};
ghost use Rattle.cache_machine.specs.Runs.{recent, give_up, done, keys, no_memory};
ghost use Rattle.cache_machine.specs.Trials.{listed, two, two_turned, holding, unowned, owning, weighing, weighed, idle, owned, owned_twice, owned_by_other, three_and_first, three_and_last, three_alone, longer_first, first_twice, heavy_alone, Allowed, Refused, asks, gives_one, gives_one_unkept, gives_four, gives_seven, gives_eight, hit, join, own, StoryIsRun};

/// An entry that is long enough, or whole, is hit and comes first.
pub fn entry_that_serves_is_hit()
    ensures long { Allowed (unowned two) (asks 1 2) (hit (listed 2 9)) (unowned two) }
    ensures whole { Allowed (unowned two) (asks 2 5) (hit (listed 4 4)) (unowned two_turned) }
    ensures stays { Refused (unowned two) (asks 2 5) (hit (listed 4 4)) (unowned two) }
    ensures missed { Refused (unowned two) (asks 2 5) own (holding two (owned_by_other 2)) }
    ensures joined { Refused (owning 2 two) (asks 2 5) (join 2 0) (owning 2 two) }
{}

/// An entry that is too short is computed anew, and stays where it is until then.
pub fn short_entry_is_computed_anew()
    ensures own { Allowed (unowned two) (asks 1 3) own (holding two (owned_by_other 1)) }
    ensures hit { Refused (unowned two) (asks 1 3) (hit (listed 2 9)) (unowned two) }
    ensures used { Refused (unowned two) (asks 2 9) own (holding two_turned (owned_by_other 2)) }
{}

/// A key that is being computed is joined, and has one owner.
pub fn pending_key_is_joined()
    ensures join { Allowed (owning 3 two) (asks 3 1) (join 3 0) (owning 3 two) }
    ensures twice { Refused (owning 3 two) (asks 3 1) own (holding two (owned_twice 3)) }
    ensures nobody { Refused (unowned two) (asks 3 1) (join 3 0) (unowned two) }
    ensures unowned { Refused (unowned two) (asks 3 1) own (unowned two) }
{}

/// Memory is wanted for the value of a hit alone, and then nothing changed.
pub fn hit_without_memory_changes_nothing()
    ensures hit { Allowed (unowned two) (asks 2 4) no_memory (unowned two) }
    ensures used { Refused (unowned two) (asks 2 4) no_memory (unowned two_turned) }
    ensures missed { Refused (unowned two) (asks 3 1) no_memory (unowned two) }
    ensures joined { Refused (owning 3 two) (asks 3 1) no_memory (owning 3 two) }
{}

/// What is given is stored first, the least recently used goes where there is no room, and the key is free again.
pub fn finished_pair_comes_first()
    ensures stored { Allowed (owning 3 two) gives_one done (unowned three_and_first) }
    ensures replaced { Allowed (owning 1 two) gives_four done (unowned longer_first) }
    ensures newest_goes { Refused (owning 3 two) gives_one done (unowned three_and_last) }
    ensures given_goes { Refused (owning 3 two) gives_one done (unowned two) }
    ensures doubled { Refused (owning 1 two) gives_four done (unowned first_twice) }
    ensures owned { Refused (owning 3 two) gives_one done (owning 3 three_and_first) }
{}

/// What may not be kept, and what finds no memory, changes no entry; the key is free again.
pub fn unstored_finish_frees_the_key()
    ensures unkept { Allowed (owning 3 two) gives_one_unkept done (unowned two) }
    ensures kept { Refused (owning 3 two) gives_one_unkept done (unowned three_and_first) }
    ensures memory { Allowed (owning 3 two) gives_one no_memory (unowned two) }
    ensures owned { Refused (owning 3 two) gives_one no_memory (owning 3 two) }
    ensures dropped { Refused (owning 3 two) gives_one no_memory (unowned three_alone) }
{}

/// Where weight is bounded, the least recently used go until the rest is light enough; what is too heavy by itself is
/// not stored, and pushes nothing out.
pub fn weight_is_bounded()
    ensures fits { Allowed (weighing two_turned (owned 3)) gives_one done (weighed three_and_last) }
    ensures all_go { Allowed (weighing two (owned 3)) gives_seven done (weighed heavy_alone) }
    ensures some_stays { Refused (weighing two (owned 3)) gives_one done (weighed three_alone) }
    ensures too_heavy { Allowed (weighing two (owned 3)) gives_eight done (weighed two) }
    ensures pushes_out { Refused (weighing two (owned 3)) gives_eight done (weighed []) }
{}

/// A key that is given up is free again, and its entry stays.
pub fn given_up_key_is_free()
    ensures free { Allowed (owning 1 two) (give_up 0) done (unowned two) }
    ensures owned { Refused (owning 1 two) (give_up 0) done (owning 1 two) }
    ensures dropped { Refused (owning 1 longer_first) (give_up 0) done (unowned three_alone) }
    ensures other { Allowed (holding two (owned_twice 3)) (give_up 1) done (owning 3 two) }
{}

/// The most recently used keys are told, and none is used thereby.
pub fn recent_begins_with_the_newest()
    ensures one { Allowed (unowned two) (recent 1) (keys (1 ∷ [])) (unowned two) }
    ensures most { Allowed (unowned two) (recent 9) (keys (1 ∷ 2 ∷ [])) (unowned two) }
    ensures oldest { Refused (unowned two) (recent 1) (keys (2 ∷ [])) (unowned two) }
    ensures turned { Refused (unowned two) (recent 9) (keys (1 ∷ 2 ∷ [])) (unowned two_turned) }
{}

/// A key is missed and owned, joined by another, finished, hit, found too short, owned anew, given up and told.
pub fn story_is_a_run()
    ensures { StoryIsRun }
{}
