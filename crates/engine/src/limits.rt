// The room that drawing a sheet takes, and that of a small sheet.
use arcs::limits::{FEW_ARCS, FEW_NODES, MAX_ARCS};
use guess::layout::{STACK_COUNT, STACKS};
use network::layout::STRIDE;
use network::nodes::NODE_STRIDE;
use sheet::limits::MAX_NODES;

// The nodes of a sheet with ground.
pub const MAX_GROUNDED: usize = MAX_NODES as usize + 1;

// The numbers of so many nodes.
pub const MAX_NODE_NUMBERS: usize = NODE_STRIDE * MAX_GROUNDED;

// The room to solve in, with which solving is fast, for so many nodes and the arcs of a sheet.
pub const MAX_ROOM: usize = STACKS + STACK_COUNT * MAX_GROUNDED + 2 * MAX_ARCS;

// The numbers of few arcs.
pub const FEW_ELEMENTS: usize = STRIDE * FEW_ARCS;

// The nodes of a small sheet with ground.
pub const FEW_GROUNDED: usize = FEW_NODES + 1;

// The numbers of so many nodes.
pub const FEW_NODE_NUMBERS: usize = NODE_STRIDE * FEW_GROUNDED;

// The room to solve in, with which solving is fast, for so many nodes and few arcs.
pub const FEW_ROOM: usize = STACKS + STACK_COUNT * FEW_GROUNDED + 2 * FEW_ARCS;

// Most sheets of so many bytes have few arcs.
pub const FEW_BYTES: usize = 256;
