// Packed edges in chains, one for each layer, by their lower ends. A link is 0 if there is no edge, else the edge's index and 1: a number
// of 16 bits in fixed memory, so no Option. The first links lead from a layer's first node to the last edge of the layer, those behind them
// from each edge to the one before it in its chain.
ghost use Rattle.std.specs.Prelude.{◌≡◌, ◌/◌, ◌<◌, T, length, replicate, get_or};
ghost use Rattle.sheet.specs.Limits.{max_nodes, max_edges};
ghost use Rattle.network.specs.Packed.{stride};
ghost use Rattle.totals.specs.RunningSums.{chainable};
ghost use Rattle.totals.specs.inside.Chains.{link_of, links, linked, StartTable, Chained};

use crate::starts::NODES;
use network::layout::STRIDE;
use packed::edge_lower;
use sheet::limits::MAX_EDGES;

// A link for each node of a sheet, and one for each edge.
pub const LINKS: usize = NODES + EDGES;

// How many edges a sheet may have.
const EDGES: usize = MAX_EDGES as usize;

// Chains the edges, by the first node of each node's layer, if a sheet may have so many edges and their lower ends are such nodes; whether
// it is so.
pub fn chain(edges: &[u32], starts: &[u16], chains: &mut [u16]) -> bool
    requires start_table { StartTable starts.now }
    requires chains_value { chains.old ≡ replicate links 0 }
    ensures answer { result ≡ chainable (length starts.now) edges.now }
    ensures slice { T (chainable (length starts.now) edges.now)
        → Chained starts.now edges.now (length edges.now / stride) chains.new }
{
    let count = edges.len() / STRIDE;
    if EDGES < count {
        return false;
    }
    for i in 0..count {
        let Some(start) = starts.get(edge_lower(edges, i) as usize) else {
            return false;
        };
        put_link(chains, usize::from(*start), i);
    }
    true
}

// Puts edge i at the end of the chain of a first node.
fn put_link(chains: &mut [u16], start: usize, i: usize)
    requires { (start < max_nodes) × (i < max_edges) × (length chains.old ≡ links) }
    ensures { chains.new ≡ linked chains.old start i }
{
    chains[NODES + i] = chains[start];
    chains[start] = (i + 1) as u16;
}

// The edge to which a link leads, if there is one.
pub fn edge_at(chains: &[u16], at: usize) -> Option<usize>
    requires { at < length chains.now }
    ensures { link_of result ≡ get_or chains.now at 0 }
{
    usize::from(chains[at]).checked_sub(1)
}
