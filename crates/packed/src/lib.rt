// Packed arcs and places, of whatever sheet: the ends and weights of packed edges, the coordinates of nodes, another width.
// Between `usize` and the stored types a number goes by `as`: there is no `From`, and `try_from` would test what is proved.
#![tactic(auto)]

mod ends;
mod widths;

pub use ends::{edge_lower, edge_upper, edge_weight, place};
pub use widths::set_width;
