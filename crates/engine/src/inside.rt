// The total of a loaded sheet at a width, for crates above: it asks for a width within the limit, so it is no public call.
pub use crate::widths::total_at;
