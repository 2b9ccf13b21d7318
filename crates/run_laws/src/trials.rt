//! The laws are tried on small outputs: one that is lawful, and others of which each breaks one law alone. Each
//! function does nothing: its clause is what the trial shows.
ghost use Rattle.std.specs.Prelude.{◌≡◌, ◌∷◌, [], map};
ghost use Rattle.run_laws.specs.Lawful.{Lawful};
ghost use Rattle.run_laws.specs.OutputText.{output_text};
ghost use Rattle.run_laws.specs.Trials.{BreaksAlone, one_row_each, one_history, orders, answers, greatest_serves, tickets, ticket_order, warmings, one_warming, two_warming, add_commit_query, two_adds, adds_of_two, adds_in_phases, bad_add, one_commit, two_commits, one_query, two_queries, queries_and_commit, query_then_commit, commits_in_turn, one_add, commit_then_add, commit_then_phase, worked, worked_text};
ghost use Rattle.run_laws.specs.Trials as trial;

/// A document is added, committed and found: the output is lawful, the query's row alone tells a
/// document, and the text is spelled out.
pub fn worked_output_is_lawful()
    ensures lawful { Lawful one_warming add_commit_query worked }
    ensures found { map (λ r. r.found) worked.requests ≡ 0 ∷ 0 ∷ 1 ∷ [] }
    ensures docs { map (λ r. r.docs) worked.requests ≡ 0 ∷ 0 ∷ 1 ∷ [] }
    ensures text { output_text worked ≡ worked_text }
{}

/// Outputs that no serial run gives are lawful too: a later searcher overtakes an earlier one, a commit is told who is
/// warming, and there is no memory for an add, or for the reply of a query that had acquired its searcher. So is the
/// output of an empty script. The text of a superseded searcher is spelled out.
pub fn other_outputs_are_lawful()
    ensures nothing { Lawful one_warming [] trial.nothing_asked }
    ensures overtaken { Lawful two_warming two_commits trial.overtaken }
    ensures warming { Lawful one_warming two_commits trial.warming_told }
    ensures memory { Lawful one_warming one_add trial.add_without_memory }
    ensures served { Lawful one_warming one_query trial.query_without_memory }
    ensures superseded { output_text trial.overtaken ≡ trial.overtaken_text }
{}

/// Each request has a row.
pub fn missing_row_is_unlawful()
    ensures unlawful { Lawful one_warming add_commit_query trial.row_is_missing → ⊥ }
    ensures alone { BreaksAlone one_warming add_commit_query trial.row_is_missing one_row_each }
{}

/// The searchers are the generations from 1 on.
pub fn skipped_generation_is_unlawful()
    ensures unlawful { Lawful one_warming one_commit trial.generation_is_skipped → ⊥ }
    ensures alone { BreaksAlone one_warming one_commit trial.generation_is_skipped one_row_each }
{}

/// Places are taken once: two adds may not tell the same.
pub fn shared_place_is_unlawful()
    ensures unlawful { Lawful one_warming adds_of_two trial.place_is_shared → ⊥ }
    ensures alone { BreaksAlone one_warming adds_of_two trial.place_is_shared one_history }
{}

/// The first searcher is opened at place 0 and registered at place 1.
pub fn first_end_before_its_opening_is_unlawful()
    ensures unlawful { Lawful one_warming [] trial.first_ends_first → ⊥ }
    ensures alone { BreaksAlone one_warming [] trial.first_ends_first one_history }
{}

/// Each later searcher is opened by a commit.
pub fn opening_by_nobody_is_unlawful()
    ensures unlawful { Lawful one_warming one_add trial.opened_by_nobody → ⊥ }
    ensures alone { BreaksAlone one_warming one_add trial.opened_by_nobody one_history }
{}

/// The openings ascend with the generations.
pub fn descending_openings_are_unlawful()
    ensures unlawful { Lawful two_warming two_commits trial.openings_descend → ⊥ }
    ensures alone { BreaksAlone two_warming two_commits trial.openings_descend one_history }
{}

/// A client's later update has the greater place.
pub fn swapped_places_are_unlawful()
    ensures unlawful { Lawful one_warming two_adds trial.places_are_swapped → ⊥ }
    ensures alone { BreaksAlone one_warming two_adds trial.places_are_swapped orders }
{}

/// An update of a later phase has the greater place.
pub fn swapped_phases_are_unlawful()
    ensures unlawful { Lawful one_warming adds_in_phases trial.phases_are_swapped → ⊥ }
    ensures alone { BreaksAlone one_warming adds_in_phases trial.phases_are_swapped orders }
{}

/// A client's requests come behind the end of the searcher for which it has waited.
pub fn client_that_does_not_wait_is_unlawful()
    ensures unlawful { Lawful one_warming commit_then_add trial.client_did_not_wait → ⊥ }
    ensures alone { BreaksAlone one_warming commit_then_add trial.client_did_not_wait orders }
{}

/// The requests of a phase come behind the ends of all searchers that were opened before it.
pub fn phase_that_does_not_wait_is_unlawful()
    ensures unlawful { Lawful one_warming commit_then_phase trial.phase_did_not_wait → ⊥ }
    ensures alone { BreaksAlone one_warming commit_then_phase trial.phase_did_not_wait orders }
{}

/// An accepted add has a place.
pub fn add_without_place_is_unlawful()
    ensures unlawful { Lawful one_warming two_adds trial.add_has_no_place → ⊥ }
    ensures alone { BreaksAlone one_warming two_adds trial.add_has_no_place answers }
{}

/// A body that is no document is refused.
pub fn accepted_bad_add_is_unlawful()
    ensures unlawful { Lawful one_warming bad_add trial.bad_add_is_accepted → ⊥ }
    ensures alone { BreaksAlone one_warming bad_add trial.bad_add_is_accepted answers }
{}

/// An update for which there was no memory takes no place.
pub fn placed_add_without_memory_is_unlawful()
    ensures unlawful { Lawful one_warming one_add trial.placed_without_memory → ⊥ }
    ensures alone { BreaksAlone one_warming one_add trial.placed_without_memory answers }
{}

/// A searcher is superseded by none but a greater one.
pub fn causeless_superseding_is_unlawful()
    ensures unlawful { Lawful one_warming one_commit trial.superseded_by_none → ⊥ }
    ensures alone { BreaksAlone one_warming one_commit trial.superseded_by_none greatest_serves }
{}

/// No searcher is registered over a greater one.
pub fn late_registration_is_unlawful()
    ensures unlawful { Lawful two_warming two_commits trial.registered_too_late → ⊥ }
    ensures alone { BreaksAlone two_warming two_commits trial.registered_too_late greatest_serves }
{}

/// A commit is refused for too many warming searchers only where there are as many.
pub fn causeless_refusal_is_unlawful()
    ensures unlawful { Lawful one_warming one_commit trial.refused_without_cause → ⊥ }
    ensures alone { BreaksAlone one_warming one_commit trial.refused_without_cause answers }
{}

/// A commit tells the generation of a searcher that it opened.
pub fn opening_of_nothing_is_unlawful()
    ensures unlawful { Lawful one_warming one_commit trial.opened_nothing → ⊥ }
    ensures alone { BreaksAlone one_warming one_commit trial.opened_nothing answers }
{}

/// A refused commit is told which searchers are warming.
pub fn another_warming_told_is_unlawful()
    ensures unlawful { Lawful one_warming two_commits trial.another_warming_told → ⊥ }
    ensures alone { BreaksAlone one_warming two_commits trial.another_warming_told answers }
{}

/// No more searchers are warming than may be.
pub fn crowded_warming_is_unlawful()
    ensures unlawful { Lawful one_warming two_commits trial.warms_too_many → ⊥ }
    ensures alone { BreaksAlone one_warming two_commits trial.warms_too_many answers }
{}

/// A query is served from a searcher that there was.
pub fn service_from_none_is_unlawful()
    ensures unlawful { Lawful one_warming one_query trial.served_from_none → ⊥ }
    ensures alone { BreaksAlone one_warming one_query trial.served_from_none answers }
{}

/// A reply is the answer on what the told generation sees.
pub fn reply_of_another_view_is_unlawful()
    ensures unlawful { Lawful one_warming add_commit_query trial.reply_of_another_view → ⊥ }
    ensures alone { BreaksAlone one_warming add_commit_query trial.reply_of_another_view answers }
{}

/// A reply has the documents that were found, and not others in their number.
pub fn reply_with_another_document_is_unlawful()
    ensures unlawful { Lawful one_warming add_commit_query trial.another_document → ⊥ }
    ensures alone { BreaksAlone one_warming add_commit_query trial.another_document answers }
{}

/// A query is served from no searcher before that for which its client has waited.
pub fn service_from_before_is_unlawful()
    ensures unlawful { Lawful one_warming add_commit_query trial.served_from_before → ⊥ }
    ensures alone { BreaksAlone one_warming add_commit_query trial.served_from_before answers }
{}

/// A query is served from no searcher that was opened behind it.
pub fn service_from_after_is_unlawful()
    ensures unlawful { Lawful one_warming query_then_commit trial.served_from_after → ⊥ }
    ensures alone { BreaksAlone one_warming query_then_commit trial.served_from_after answers }
{}

/// A client's later query is served from no earlier generation.
pub fn backward_service_is_unlawful()
    ensures unlawful { Lawful one_warming queries_and_commit trial.served_backwards → ⊥ }
    ensures alone { BreaksAlone one_warming queries_and_commit trial.served_backwards answers }
{}

/// The tickets of a client's queries on one generation rise.
pub fn descending_tickets_are_unlawful()
    ensures unlawful { Lawful one_warming two_queries trial.tickets_descend → ⊥ }
    ensures alone { BreaksAlone one_warming two_queries trial.tickets_descend answers }
{}

/// Tickets count from 0.
pub fn skipped_ticket_is_unlawful()
    ensures unlawful { Lawful one_warming add_commit_query trial.ticket_is_skipped → ⊥ }
    ensures alone { BreaksAlone one_warming add_commit_query trial.ticket_is_skipped tickets }
{}

/// Tickets lie below the number of acquires.
pub fn ticket_past_acquired_is_unlawful()
    ensures unlawful { Lawful one_warming one_query trial.ticket_past_acquired → ⊥ }
    ensures alone { BreaksAlone one_warming one_query trial.ticket_past_acquired tickets }
{}

/// The tickets of one generation rise from phase to phase.
pub fn descending_tickets_of_phases_are_unlawful()
    ensures unlawful { Lawful one_warming trial.queries_in_phases trial.phases_descend → ⊥ }
    ensures alone { BreaksAlone one_warming trial.queries_in_phases trial.phases_descend answers }
{}

/// A query has no lower ticket than one that was served before it, as the places around the two show.
pub fn crossing_tickets_are_unlawful()
    ensures unlawful { Lawful one_warming trial.crossing trial.tickets_cross → ⊥ }
    ensures alone { BreaksAlone one_warming trial.crossing trial.tickets_cross ticket_order }
{}

/// Nor has a warming, between the opening and the end of its searcher.
pub fn crossing_ticket_of_warming_is_unlawful()
    ensures unlawful { Lawful one_warming query_then_commit trial.warming_crosses → ⊥ }
    ensures alone { BreaksAlone one_warming query_then_commit trial.warming_crosses ticket_order }
{}

/// A searcher above the first is warmed from one.
pub fn warming_from_none_is_unlawful()
    ensures unlawful { Lawful one_warming add_commit_query trial.warmed_from_none → ⊥ }
    ensures alone { BreaksAlone one_warming add_commit_query trial.warmed_from_none warmings }
{}

/// No searcher is warmed from itself, since it is not current yet.
pub fn warming_from_itself_is_unlawful()
    ensures unlawful { Lawful one_warming add_commit_query trial.warmed_from_itself → ⊥ }
    ensures alone { BreaksAlone one_warming add_commit_query trial.warmed_from_itself warmings }
{}

/// No searcher is warmed from one that was current only before it was opened.
pub fn warming_from_before_is_unlawful()
    ensures unlawful { Lawful one_warming commits_in_turn trial.warmed_from_before → ⊥ }
    ensures alone { BreaksAlone one_warming commits_in_turn trial.warmed_from_before warmings }
{}
