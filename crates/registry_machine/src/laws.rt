//! What holds of every legal history. Each function does nothing: its clauses are the laws.
ghost use Rattle.registry_machine.specs.Laws.{StatesGrow, HistoriesGrow, EachWasAllowed, PrefixesAreLegal, KeptHoldsOfPrefixes};
ghost use Rattle.registry_machine.specs.Laws.{LastRegisteredIsCurrent, UnendedAreWarming, AcquiresAreCounted, OpeningsAreCounted};
ghost use Rattle.registry_machine.specs.Laws.{OpeningsAreNumbered, OpenedAscend, GenerationsOpenOnce};
ghost use Rattle.registry_machine.specs.Laws.{GenerationsEndOnce, EndedWereOpened, EndsStandBehind, RegisteredAscend};
ghost use Rattle.registry_machine.specs.Laws.{TicketsCountUp, TicketsAreGivenOnce, LowerTicketsComeFirst, AcquiredNeverDescend};
ghost use Rattle.registry_machine.specs.Laws.{PlacesNeverDescend, PlacesRise, PlacesHaveOneIndex, EachPlaceHasAnEntry};
ghost use Rattle.registry_machine.specs.Laws.{OpenedSlotsWereFree, PinnedSlotsStayOpen, PinnedSlotsAreNotTaken, GenerationsAreFreedOnce};
ghost use Rattle.registry_machine.specs.Laws.{OwnEntriesJoin, OwnEntriesAreAdded, SeenProlongsItself, ProlongingsJoin};

/// A history grows by one entry at a time: the state after one more is that after the entry, which is allowed there. What
/// holds of no entries, and is kept by each, holds of every prefix.
pub fn histories_grow<U, D, L>()
    ensures state { StatesGrow U D L }
    ensures grown { HistoriesGrow U D L }
    ensures allowed { EachWasAllowed U D L }
    ensures prefix { PrefixesAreLegal U D L }
    ensures kept { KeptHoldsOfPrefixes U D L }
{}

/// The state says what the entries told: the current generation is the last one registered, the warming ones are those
/// opened and not ended, in the order of their openings, and acquires are counted.
pub fn states_tell_histories<U, D, L>()
    ensures current { LastRegisteredIsCurrent U D L }
    ensures warming { UnendedAreWarming U D L }
    ensures acquired { AcquiresAreCounted U D L }
    ensures opened { OpeningsAreCounted U D L }
{}

/// The i-th opening has the i-th generation.
pub fn generations_count_openings<U, D, L>()
    ensures listed { OpeningsAreNumbered U D L }
    ensures ascending { OpenedAscend U D L }
    ensures once { GenerationsOpenOnce U D L }
{}

/// A generation is ended at most once, behind its opening. Registered generations ascend.
pub fn generations_end_once<U, D, L>()
    ensures once { GenerationsEndOnce U D L }
    ensures opened { EndedWereOpened U D L }
    ensures behind { EndsStandBehind U D L }
    ensures ascending { RegisteredAscend U D L }
{}

/// The acquires of a generation have the tickets 0, 1, 2 and so on, in the order of the history, and acquired
/// generations never descend.
pub fn tickets_count_acquires<U, D, L>()
    ensures listed { TicketsCountUp U D L }
    ensures once { TicketsAreGivenOnce U D L }
    ensures ordered { LowerTicketsComeFirst U D L }
    ensures rising { AcquiredNeverDescend U D L }
{}

/// Places never descend along a history, and rise over each entry that has one. Each place below their number has
/// one index.
pub fn places_ascend<U, D, L>()
    ensures rising { PlacesNeverDescend U D L }
    ensures strictly { PlacesRise U D L }
    ensures one { PlacesHaveOneIndex U D L }
    ensures each { EachPlaceHasAnEntry U D L }
{}

/// An opening takes a slot that is open for none. While a caller pins a generation, the slot of its opening stays open
/// for it, so that no opening takes it. A generation is freed at most once.
pub fn slots_are_kept<U, D, L>()
    ensures free { OpenedSlotsWereFree U D L }
    ensures pinned { PinnedSlotsStayOpen U D L }
    ensures untaken { PinnedSlotsAreNotTaken U D L }
    ensures once { GenerationsAreFreedOnce U D L }
{}

/// A caller's own entries are joined as what it has seen is, so calls one after another prolong what it had seen before
/// the first of them.
pub fn callers_prolong<U, D, L>()
    ensures joined { OwnEntriesJoin U D L }
    ensures own { OwnEntriesAreAdded U D L }
    ensures still { SeenProlongsItself U D L }
    ensures again { ProlongingsJoin U D L }
{}
