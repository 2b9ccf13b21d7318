//! Agreeing is tried on short histories and rows: some agree, and others break one premise alone. Each
//! function does nothing: its clauses are what the trial shows.
ghost use Rattle.std.specs.Prelude.{[], ◌∷◌};
ghost use Rattle.registry_machine.specs.Legal.{Legal};
ghost use Rattle.run_laws.specs.Trials.{one_warming, one_add, two_adds, one_query, add_commit_query, commits_in_turn, worked};
ghost use Rattle.run_history.specs.Agreement.{OutputAgrees};
ghost use Rattle.run_history.specs.Trials.{worked_history, read, limits, BreaksAlone, IsUnlawful, rows, once, searchers, order, warmings, views, replies, released, begun, first_life, unused, placed_idly, untold, told_but_one, later_end, turned_round, told_backwards, warmed_early, commits_told, early_lives, blind, blindly_served, two_lives, one_added, told_without_memory, unreleased, served_once};

/// A document is added, committed and found: the rows agree with a legal history.
pub fn worked_rows_agree()
    ensures legal { Legal limits worked_history }
    ensures agree { OutputAgrees read limits one_warming add_commit_query worked_history worked }
{}

/// A row that tells nothing has no place.
pub fn placed_row_that_tells_nothing_is_unlawful()
    ensures unlawful { IsUnlawful one_add placed_idly unused }
    ensures alone { BreaksAlone one_add begun placed_idly unused rows }
{}

/// Each entry of a caller with a place is told.
pub fn untold_entry_is_unlawful()
    ensures unlawful { IsUnlawful one_add told_but_one unused }
    ensures alone { BreaksAlone one_add untold told_but_one unused once }
{}

/// A searcher's row tells the place of its end.
pub fn wrong_end_is_unlawful()
    ensures unlawful { IsUnlawful [] [] later_end }
    ensures alone { BreaksAlone [] begun [] later_end searchers }
{}

/// A client's lines stand in the history in their order.
pub fn client_out_of_order_is_unlawful()
    ensures unlawful { IsUnlawful two_adds told_backwards unused }
    ensures alone { BreaksAlone two_adds turned_round told_backwards unused order }
{}

/// The acquire for a warming stands between the opening and the end of its searcher.
pub fn early_warming_is_unlawful()
    ensures unlawful { IsUnlawful commits_in_turn commits_told early_lives }
    ensures alone { BreaksAlone commits_in_turn warmed_early commits_told early_lives warmings }
{}

/// An opening carries the documents that the entries before it leave.
pub fn wrong_view_is_unlawful()
    ensures unlawful { IsUnlawful add_commit_query blindly_served two_lives }
    ensures alone { BreaksAlone add_commit_query blind blindly_served two_lives views }
{}

/// A request whose row tells an update is accepted.
pub fn wrong_reply_is_unlawful()
    ensures unlawful { IsUnlawful one_add told_without_memory unused }
    ensures alone { BreaksAlone one_add one_added told_without_memory unused replies }
{}

/// At the end nobody has a pin. The rows say nothing of releases, so the laws don't either.
pub fn pin_that_stays_breaks_agreement()
    ensures alone { BreaksAlone one_query unreleased served_once (first_life 1 ∷ []) released }
{}
