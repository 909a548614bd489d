// Where the numbers of a sheet stand in its list.

// The width.
pub const WIDTH: usize = 0;

// The count of layers.
pub const LAYERS: usize = 1;

// The first layer: its count of nodes. The other layers follow, each behind the separations of the one before.
pub const FIRST_LAYER: usize = 2;

// From a layer's count of nodes to the separations of its first pair.
pub const SEPARATIONS: usize = 1;

// From a pair's separations to the next pair's.
pub const SEPARATION_STRIDE: usize = 2;

// The minimum separation of a pair.
pub const MINIMUM: usize = 0;

// The maximum separation of a pair, 0 where none is set.
pub const MAXIMUM: usize = 1;

// From the count of edges, which follows the last layer, to the first edge.
pub const EDGES: usize = 1;

// From an edge to the next one.
pub const EDGE_STRIDE: usize = 4;

// The upper layer of an edge, from 1.
pub const EDGE_LAYER: usize = 0;

// The position of its upper end in that layer, from 1.
pub const EDGE_UPPER: usize = 1;

// The position of its lower end in the layer below, from 1.
pub const EDGE_LOWER: usize = 2;

// The kind of an edge: 0 plain, 1 straight.
pub const EDGE_KIND: usize = 3;
