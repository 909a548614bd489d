// How a slice of 32-bit numbers holds the nodes: NODE_STRIDE numbers to a node, the potential first, and ground last.

// From a node to the next one.
pub const NODE_STRIDE: usize = 6;

// What is added to a potential that is answered, which is relative to ground's: 2^28.
pub const POTENTIAL_ZERO: usize = 268435456;

// What is added to a deficit: 2^30.
pub const DEFICIT_ZERO: usize = 1073741824;

// In a node: its potential.
pub const POTENTIAL: usize = 0;

// In a node: how much more flows out of it than in, with DEFICIT_ZERO added.
pub const DEFICIT: usize = 1;

// In a node: its place in the order of reaching; 0 if it is not reached.
pub const ORDER: usize = 2;

// In a node: the arc over which it was reached.
pub const PARENT: usize = 3;

// In a node: how much can be moved to it from the source.
pub const RESIDUAL: usize = 4;

// In a node: where the entries of the arcs at it begin. Only a guess uses it.
pub const ENTRIES: usize = 5;
