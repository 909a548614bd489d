// The limits of flows that are taken, and of arcs as 64-bit numbers.
use network::layout::{FLOW_ZERO, HIGH_NONE};

// A low limit as it is stored is none or at least this: -1,024, with 2^28 added.
pub const LOW_LEAST: usize = 268434432;

// A high limit as it is stored is none or at most this: 1,024, with 2^28 added.
pub const HIGH_MOST: usize = 268436480;

// A flow that is counted is, as it is stored, at least this: -16,384, with 2^28 added.
pub const FLOW_LEAST: usize = 268419072;

// And at most this: 16,384, with 2^28 added.
pub const FLOW_MOST: usize = 268451840;

// The flow 0 as it is stored.
pub const NO_FLOW: usize = FLOW_ZERO as usize;

// The high limit that is none.
pub const UNLIMITED: usize = HIGH_NONE as usize;
