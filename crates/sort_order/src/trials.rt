//! The order is tried on small documents: it takes the order that is right and refuses those that are wrong in one
//! thing. Each function does nothing: its clauses are what the trial shows.
ghost use Rattle.std.specs.Prelude.{◌∷◌, []};
ghost use Rattle.sort_order.specs.Trials.{id, cat, price, a, b, c, d, shop, two_cats, ten, minus_two, so, not_so, asc, desc, index_desc, Stand, DoNotStand};

/// A document without a value stands first, and ties stand by their numbers.
pub fn rising_key()
    ensures stands { Stand (asc cat ∷ []) shop (d ∷ a ∷ c ∷ b ∷ []) }
    ensures missing_last { DoNotStand (asc cat ∷ []) shop (a ∷ c ∷ b ∷ d ∷ []) }
    ensures ties_turned { DoNotStand (asc cat ∷ []) shop (d ∷ c ∷ a ∷ b ∷ []) }
{}

/// A falling key turns the values round, the missing one too, and not the ties.
pub fn falling_key()
    ensures stands { Stand (desc cat ∷ []) shop (b ∷ a ∷ c ∷ d ∷ []) }
    ensures ties_turned { DoNotStand (desc cat ∷ []) shop (b ∷ c ∷ a ∷ d ∷ []) }
    ensures missing_first { DoNotStand (desc cat ∷ []) shop (d ∷ b ∷ a ∷ c ∷ []) }
{}

/// The second key tells what the first one leaves, and each turns round by itself.
pub fn two_keys()
    ensures stands { Stand (desc price ∷ desc id ∷ []) shop (c ∷ b ∷ d ∷ a ∷ []) }
    ensures second_unread { DoNotStand (desc price ∷ desc id ∷ []) shop (c ∷ b ∷ a ∷ d ∷ []) }
    ensures second_first { DoNotStand (desc price ∷ desc id ∷ []) shop (d ∷ c ∷ b ∷ a ∷ []) }
    ensures rising_last { Stand (desc price ∷ asc id ∷ []) shop (c ∷ b ∷ a ∷ d ∷ []) }
{}

/// The index order can be turned round too.
pub fn index_order()
    ensures rising { Stand [] shop (a ∷ b ∷ c ∷ d ∷ []) }
    ensures falling { Stand (index_desc ∷ []) shop (d ∷ c ∷ b ∷ a ∷ []) }
    ensures unturned { DoNotStand (index_desc ∷ []) shop (a ∷ b ∷ c ∷ d ∷ []) }
{}

/// Of several values the first one counts.
pub fn several_values()
    ensures first { Stand (asc cat ∷ []) (b ∷ two_cats ∷ []) (b ∷ two_cats ∷ []) }
    ensures second { DoNotStand (asc cat ∷ []) (b ∷ two_cats ∷ []) (two_cats ∷ b ∷ []) }
{}

/// Numbers stand by their values, and false stands before true.
pub fn kinds_of_values()
    ensures numbers { Stand (asc price ∷ []) (ten ∷ c ∷ minus_two ∷ []) (minus_two ∷ c ∷ ten ∷ []) }
    ensures truths { Stand (asc price ∷ []) (so ∷ not_so ∷ []) (not_so ∷ so ∷ []) }
    ensures not_texts { DoNotStand (asc price ∷ []) (ten ∷ c ∷ []) (ten ∷ c ∷ []) }
{}
