// The leaves that `leftmost` shares: they ask for something, so they are no public calls.
pub use crate::ends::{asks_at, at_head, at_tail, stands_at};
pub use crate::finish::finish;
pub use crate::input::low_start;
pub use crate::nodes::{count_of, get};
pub use crate::start::count_deficits;
