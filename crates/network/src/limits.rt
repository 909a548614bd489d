// The limits of packed arcs that a solver takes.

// So many nodes with ground are taken.
pub const MAX_NODES: usize = 4096;

// So many arcs are taken.
pub const MAX_ARCS: usize = 8192;

// A kink as it is stored is 1 or more, and at most this: 65,535, with 65,536 added.
pub const MAX_KINK: usize = 131071;
