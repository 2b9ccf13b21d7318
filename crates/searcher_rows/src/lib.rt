//! The books of a searcher: tests of `searcher_books`.
#![tactic(auto)]

#[cfg(test)]
mod base;
#[cfg(test)]
mod books;
