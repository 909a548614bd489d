// The limits of what is loaded.
use network::layout::STRIDE;
use sheet::limits::{MAX_EDGES, MAX_LAYERS, MAX_NODES};

// The arcs of a sheet: one for each edge and two for each node.
pub const MAX_ARCS: usize = MAX_EDGES as usize + 2 * MAX_NODES as usize;

// The elements that they take: a slice of so many is long enough for every sheet.
pub const MAX_ELEMENTS: usize = STRIDE * MAX_ARCS;

// The first node of each layer and the count of nodes: a slice of so many is long enough for every sheet.
pub const MAX_FIRSTS: usize = MAX_LAYERS as usize + 1;

// A small sheet has so many arcs at most: it has arrays of its own size, since clearing them is a part of the time.
pub const FEW_ARCS: usize = 96;

// And so many nodes: each node has two arcs.
pub const FEW_NODES: usize = FEW_ARCS / 2;
