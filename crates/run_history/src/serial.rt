//! How the rows of a serial run agree with its history, request by request. Each function does nothing:
//! its clause is what one kind of request adds.
ghost use Rattle.run_history.specs.Laws.{StartServes, IdleRowsServe, UpdateRowsServe, QueryRowsServe, OpeningRowsServe, AgreeingIsInAnyOrder};

/// A run begins with the first searcher, which is opened and registered before any request.
pub fn runs_start<U, D, L>()
    ensures started { StartServes U D L }
{}

/// A request that did nothing adds its row alone.
pub fn idle_rows_agree<U, D, L>()
    ensures added { IdleRowsServe U D L }
{}

/// An update, or a commit that opens nothing, adds one entry, at the next place.
pub fn update_rows_agree<U, D, L>()
    ensures added { UpdateRowsServe U D L }
{}

/// A query adds an acquire of the current generation, and its release.
pub fn query_rows_agree<U, D, L>()
    ensures added { QueryRowsServe U D L }
{}

/// A commit that opens adds the opening, the acquire and the release for the warming, the
/// registration, and the freeing of the generation before.
pub fn opening_rows_agree<U, D, L>()
    ensures added { OpeningRowsServe U D L }
{}

/// Rows that agree with a history agree with it in any order.
pub fn rows_agree_in_any_order<U, D, L>()
    ensures moved { AgreeingIsInAnyOrder U D L }
{}
