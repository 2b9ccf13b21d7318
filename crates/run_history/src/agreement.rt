//! Rows that agree with a legal history are lawful.
ghost use Rattle.run_history.specs.Laws.{AgreeingIsLawful};

/// Rows that agree with a legal history, whose first generation is 1, are lawful, where the lines of
/// the script ascend.
pub fn agreeing_rows_are_lawful<U, D, L>()
    ensures lawful { AgreeingIsLawful U D L }
{}
