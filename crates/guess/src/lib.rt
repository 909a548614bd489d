// A guess of flows and potentials of a network of packed arcs, for a caller that tests it. Nothing is proved of a guess but that it ends
// and stays within its slices: so this crate has no public call, only a door to the guess (`inside`), and its layout.
// Between `usize` and the stored types a number goes by `as`: there is no `From`, and `try_from` would test what is proved.
#![tactic(auto)]

mod augment;
mod entries;
pub mod inside;
mod labels;
pub mod layout;
mod primal_dual;
mod scan;
mod search;
mod slices;
mod slots;
mod sources;
mod stacks;
mod start;
mod way;
