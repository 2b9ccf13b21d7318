/// What joins clauses: the operator of a query without conjunctions, and a conjunction.
#[derive(Clone, Copy, Debug, PartialEq, Eq)]
pub enum Op {
    /// `OR` or `||`.
    Or,
    /// `AND` or `&&`.
    And,
}
