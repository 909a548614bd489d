// What the guess keeps in the numbers of a node and in the room. A node is named by where its numbers begin. What is tested of a
// guess stands where the layout of nodes has it.
use network::nodes::NODE_STRIDE;

// In a node: its potential; HIDDEN if it is reached, so that no arc to it is on its kink.
pub const POTENTIAL: u32 = network::nodes::POTENTIAL as u32;

// In a node: how much more flows out of it than in, with DEFICIT_ZERO added.
pub const DEFICIT: u32 = network::nodes::DEFICIT as u32;

// In a node: the epoch if it is labelled; at the end its place in the order of reaching.
pub const MARK: u32 = network::nodes::ORDER as u32;

// In a node: twice the arc over which it is labelled or reached, one more if it is the arc's tail.
pub const PARENT: u32 = network::nodes::PARENT as u32;

// In a node that is labelled: how far the source has risen once it reaches the node.
pub const LABEL: u32 = 4;

// In a node that is reached, in place of the label: its potential.
pub const HIDDEN_POTENTIAL: u32 = LABEL;

// More than any potential. No Option: as it is, that a node is not reached and an arc on its kink is one comparison, which is faster.
pub const HIDDEN: u32 = u32::MAX;

// In a node: where its entries begin.
pub const FIRST: u32 = network::nodes::ENTRIES as u32;

// From a node on: where the entries of the next one begin.
pub const NEXT_FIRST: u32 = FIRST + NODE_STRIDE as u32;

// What is added to a deficit: 2^30.
pub const DEFICIT_ZERO: u32 = network::nodes::DEFICIT_ZERO as u32;

// An entry is this times the other node, and twice the arc, one more if the other node is the arc's tail.
pub const ENTRY_NODE: u32 = 16384;

// In the room, after the heights of the stacks: how far the source of this search has risen.
pub const RISEN: usize = 4;

// In the room: the epoch of this search.
pub const EPOCH: usize = 5;

// In the room: where the entries of the last node end.
pub const END: usize = 6;

// In the room: how many of the reached nodes have had the nodes beside them labelled.
pub const LOOKED: usize = 7;

// In the room: where the stacks begin. The entries follow them.
pub const STACKS: usize = 8;

// The stack of nodes whose entries are to be looked at.
pub const OPEN: u32 = 0;

// The stack of nodes that are reached.
pub const REACHED: u32 = 1;

// The stack of nodes that are labelled; some of them may be reached.
pub const LABELLED: u32 = 2;

// The stack of nodes with a deficit, the rightmost last.
pub const SOURCES: u32 = 3;

// How many stacks there are.
pub const STACK_COUNT: usize = 4;

// More than there are searches, nodes or arcs on the way of a guess that comes to something.
pub const PATIENCE: u32 = 65536;
