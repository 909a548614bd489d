// The limits of a sheet and of a coordinate file.

// The bytes of a magic.
pub const MAGIC_BYTES: usize = 3;

// The strip width W.
pub const MAX_WIDTH: u32 = 4095;

// The layers of a sheet.
pub const MAX_LAYERS: u32 = 64;

// The nodes of a layer.
pub const MAX_LAYER_NODES: u32 = 64;

// The nodes of all layers together.
pub const MAX_NODES: u32 = 256;

// The minimum and the maximum separation.
pub const MAX_SEPARATION: u32 = 4095;

// The edges of a sheet.
pub const MAX_EDGES: u32 = 512;

// The kind of an edge: 0 plain, 1 straight.
pub const MAX_KIND: u32 = 1;

// The weight of an edge.
pub const MAX_WEIGHT: u32 = 1;

// The numbers of a sheet.
pub const MAX_NUMBERS: usize = 2559;

// The bytes of a sheet.
pub const MAX_BYTES: usize = 5121;

// A coordinate in a coordinate file.
pub const MAX_COORDINATE: u32 = 4095;
