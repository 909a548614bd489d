// The numbers of a node. The nodes are one slice with a stride, and no slice of structs: the contract of `solve` says so.
ghost use Rattle.std.specs.Prelude.{◌≡◌, ℕ, ◌≤◌, ◌<◌};
ghost use Rattle.circulation.specs.inside.Stores.{Apart, Stored};
ghost use Rattle.network.specs.Net.{at};
ghost use Rattle.network.specs.Nodes.{column, node_stride, size};
ghost use Rattle.network.specs.Packed.{word_limit};
ghost use Rattle.network.specs.Limits.{most_nodes};

use network::nodes::NODE_STRIDE;

// How many nodes there are.
pub fn count_of(nodes: &[u32]) -> usize
    ensures { result ≡ size nodes.now }
{
    nodes.len() / NODE_STRIDE
}

// Number k of node v.
pub fn get(nodes: &[u32], v: usize, k: usize) -> usize
    requires { (v < size nodes.now) × (v < most_nodes) × (k < node_stride) }
    ensures { result ≡ at (column k nodes.now) v }
{
    nodes[NODE_STRIDE * v + k] as usize
}

// Stores number k of node v.
pub fn put(nodes: &mut [u32], v: usize, k: usize, a: usize)
    requires { (v < size nodes.old) × (v < most_nodes) × (k < node_stride) × (a < word_limit) }
    ensures { Stored k v a nodes.old nodes.new }
{
    nodes[NODE_STRIDE * v + k] = a as u32;
}

// Number k of every node is a.
pub fn fill(nodes: &mut [u32], k: usize, a: usize)
    requires { (size nodes.old ≤ most_nodes) × (k < node_stride) × (a < word_limit) }
    ensures by_index { (v : ℕ) → v < size nodes.old → at (column k nodes.new) v ≡ a }
    ensures apart { Apart k nodes.old nodes.new }
{
    for v in 0..count_of(nodes) {
        put(nodes, v, k, a);
    }
}
