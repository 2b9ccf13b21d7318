//! Callers on threads: the tests of `view_cells`, `searcher_table` and of `rt_edge`'s gate that holds callers.
#![tactic(auto)]

#[cfg(test)]
mod crowd;
#[cfg(test)]
mod desk;
#[cfg(test)]
mod doors;
#[cfg(test)]
mod gates;
#[cfg(test)]
mod publications;
#[cfg(test)]
mod seats;
#[cfg(test)]
mod table;
