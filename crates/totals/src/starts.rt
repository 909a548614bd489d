// Where the layers start: the first node of a layer, and of the layer that a node is in.
ghost use Rattle.std.specs.Prelude.{◌≡◌, ◌≤◌, ◌<◌, T, length};
ghost use Rattle.sheet.specs.Limits.{max_nodes};
ghost use Rattle.totals.specs.RunningSums.{layer_start, rises};
ghost use Rattle.totals.specs.inside.Chains.{InLayer, Near, Starts};

use sheet::limits::MAX_NODES;

// How many nodes a sheet may have; no node of a sheet has this number.
pub const NODES: usize = MAX_NODES as usize;

// The first nodes begin at 0, rise, and are nodes that a sheet may have.
pub fn rising(first: &[u16]) -> bool
    ensures { result ≡ rises first.now }
{
    layer_start(first, 1) == 0
        && (0..first.len()).all(|i| layer_start(first, i + 1) < layer_start(first, i + 2))
}

// The first node of a layer; of the one behind the last layer, a node that no sheet has.
pub fn layer_start(first: &[u16], layer: usize) -> usize
    requires { 1 ≤ layer }
    ensures { result ≡ layer_start first.now layer }
{
    // A test and an index: by get and map_or a total takes 2 % more instructions.
    if layer <= first.len() {
        return usize::from(first[layer - 1]);
    }
    NODES
}

// Writes for each of the first nodes that a sheet may have, as many as the slice has elements, the first node of its layer.
pub fn put_starts(first: &[u16], starts: &mut [u16])
    requires t { T (rises first.now) }
    requires starts_len_bound { length starts.old ≤ max_nodes }
    ensures { Starts first.now starts.new }
{
    let mut layer = 1;
    for (v, start) in starts.iter_mut().enumerate() {
        layer = layer_of(first, layer, v);
        *start = layer_start(first, layer) as u16;
    }
}

// The layer that a node is in, from that of the node before it.
fn layer_of(first: &[u16], layer: usize, v: usize) -> usize
    requires t { T (rises first.now) }
    requires v_lt_max_nodes { (v < max_nodes) × Near first.now layer v }
    ensures { InLayer first.now result v }
{
    if layer_start(first, layer + 1) <= v {
        return layer + 1;
    }
    layer
}
