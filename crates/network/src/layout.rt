// The packed layout: STRIDE numbers of 32 bits to an arc, one arc after the other, and flows in a slice of their own.

// In an arc: its tail, a node.
pub const TAIL: usize = 0;

// In an arc: its head, a node.
pub const HEAD: usize = 1;

// In an arc: its kink, with KINK_ZERO added.
pub const KINK: usize = 2;

// In an arc: its low limit, with FLOW_ZERO added, or LOW_NONE.
pub const LOW: usize = 3;

// In an arc: its high limit, with FLOW_ZERO added, or HIGH_NONE.
pub const HIGH: usize = 4;

// From an arc to the next one.
pub const STRIDE: usize = 5;

// What is added to a kink: 2^16.
pub const KINK_ZERO: usize = 65536;

// What is added to a limit and to a flow: 2^28.
pub const FLOW_ZERO: u32 = 268435456;

// An unlimited low: below every limit that has a number. A number, and no Option: a packed arc is five numbers (`packs`).
pub const LOW_NONE: u32 = 0;

// An unlimited high: above every limit that has a number, 2^29.
pub const HIGH_NONE: u32 = 536870912;
