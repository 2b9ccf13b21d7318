//! The machine is tried on short histories: for each kind of entry one that is legal, and others that are not, each of
//! which differs from a legal one in what its kind of entry wants alone. Each function does nothing: its clauses are
//! what the trial shows.
ghost use Rattle.std.specs.Prelude.{◌≡◌, ◌∷◌, ◌++◌, [], Some, None};
ghost use Rattle.registry_machine.specs.declared.entry.Entry.TheVariants.{GenerationsSpent, Update, NotYet, Free};
ghost use Rattle.registry_machine.specs.Legal.{Legal, state_of};
ghost use Rattle.registry_machine.specs.Trials.{small, room_for_one, one_generation, open_in, finish, superseded, acquire, release, too_many, one_current, one_warming, two_current, two_warming, overtaken, one_pinned, old_pinned};

/// An opening wants the next generation, a slot of its own, and room.
pub fn openings_are_tried()
    ensures legal { Legal small one_warming }
    ensures reopened { Legal small (one_current ++ open_in 2 0 ∷ []) → ⊥ }
    ensures pinned_slot { Legal small (old_pinned ++ open_in 3 0 ∷ []) → ⊥ }
    ensures freed_slot { Legal small (two_current ++ Free 1 ∷ open_in 3 0 ∷ []) }
    ensures no_slot { Legal small (one_current ++ open_in 2 3 ∷ []) → ⊥ }
    ensures skipped { Legal small (one_current ++ open_in 3 1 ∷ []) → ⊥ }
    ensures again { Legal small (one_current ++ open_in 1 1 ∷ []) → ⊥ }
    ensures crowded { Legal room_for_one two_warming → ⊥ }
    ensures beyond { Legal one_generation one_warming → ⊥ }
{}

/// An opening is refused as too many where as many are warming as may be, and these are told.
pub fn refusals_are_tried()
    ensures legal { Legal small (two_warming ++ too_many (2 ∷ 3 ∷ []) ∷ []) }
    ensures one_less { Legal small (one_warming ++ too_many (2 ∷ []) ∷ []) → ⊥ }
    ensures untold { Legal small (two_warming ++ too_many (2 ∷ []) ∷ []) → ⊥ }
    ensures descending { Legal small (two_warming ++ too_many (3 ∷ 2 ∷ []) ∷ []) → ⊥ }
{}

/// Generations are spent where the last one was opened, and an opening with no room is refused as too many.
pub fn spent_generations_are_tried()
    ensures legal { Legal small (overtaken ++ GenerationsSpent 1 0 ∷ []) }
    ensures too_early { Legal small (two_current ++ GenerationsSpent 1 0 ∷ []) → ⊥ }
    ensures crowded { Legal small (two_warming ++ GenerationsSpent 1 0 ∷ []) → ⊥ }
{}

/// An update is legal at any time.
pub fn updates_are_tried()
    ensures first { Legal small (Update 1 0 ∷ [] ++ one_current) }
    ensures later { Legal small (old_pinned ++ Update 2 0 ∷ []) }
{}

/// A warming generation is registered unless a greater one is current.
pub fn registrations_are_tried()
    ensures legal { Legal small (two_warming ++ finish 2 ∷ finish 3 ∷ []) }
    ensures overtaken { Legal small (overtaken ++ finish 2 ∷ []) → ⊥ }
    ensures unopened { Legal small (one_current ++ finish 2 ∷ []) → ⊥ }
    ensures twice { Legal small (one_current ++ finish 1 ∷ []) → ⊥ }
{}

/// A warming generation is superseded by a greater one that is current.
pub fn supersedings_are_tried()
    ensures legal { Legal small (overtaken ++ superseded 2 3 ∷ []) }
    ensures by_smaller { Legal small (two_warming ++ superseded 2 1 ∷ []) → ⊥ }
    ensures by_warming { Legal small (two_warming ++ superseded 2 3 ∷ []) → ⊥ }
    ensures twice { Legal small (overtaken ++ superseded 2 3 ∷ superseded 2 3 ∷ []) → ⊥ }
{}

/// A caller that pins nothing acquires the current generation, and gets the number of its acquires as its ticket.
pub fn acquires_are_tried()
    ensures legal { Legal small (one_pinned ++ acquire 3 1 1 ∷ []) }
    ensures not_current { Legal small (two_current ++ acquire 2 1 0 ∷ []) → ⊥ }
    ensures ticket_too_high { Legal small (one_current ++ acquire 2 1 1 ∷ []) → ⊥ }
    ensures ticket_again { Legal small (one_pinned ++ acquire 3 1 0 ∷ []) → ⊥ }
    ensures second_pin { Legal small (one_pinned ++ acquire 2 1 1 ∷ []) → ⊥ }
{}

/// Before anything is current a caller is told so.
pub fn early_acquires_are_tried()
    ensures legal { Legal small (open_in 1 0 ∷ NotYet 2 ∷ finish 1 ∷ []) }
    ensures current { Legal small (one_current ++ NotYet 2 ∷ []) → ⊥ }
{}

/// A caller releases what it pins.
pub fn releases_are_tried()
    ensures legal { Legal small (old_pinned ++ release 2 1 ∷ []) }
    ensures by_another { Legal small (old_pinned ++ release 3 1 ∷ []) → ⊥ }
    ensures another { Legal small (old_pinned ++ release 2 2 ∷ []) → ⊥ }
    ensures twice { Legal small (old_pinned ++ release 2 1 ∷ release 2 1 ∷ []) → ⊥ }
{}

/// A generation is freed that is neither current, warming nor pinned, once.
pub fn freeings_are_tried()
    ensures legal { Legal small (old_pinned ++ release 2 1 ∷ Free 1 ∷ []) }
    ensures superseded { Legal small (overtaken ++ superseded 2 3 ∷ Free 2 ∷ []) }
    ensures pinned { Legal small (old_pinned ++ Free 1 ∷ []) → ⊥ }
    ensures current { Legal small (two_current ++ Free 2 ∷ []) → ⊥ }
    ensures warming { Legal small (overtaken ++ Free 2 ∷ []) → ⊥ }
    ensures twice { Legal small (two_current ++ Free 1 ∷ Free 1 ∷ []) → ⊥ }
{}
