// The total of packed edges, added from the last layer to the first.
// Between `usize` and the stored types a number goes by `as`: there is no `From`, and `try_from` would test what is proved.
#![tactic(auto)]

mod chains;
mod lengths;
mod starts;

ghost use Rattle.std.specs.Prelude.{◌≡◌, ◌+◌, ◌-◌, ◌*◌, ◌≤◌, min, T, length, replicate, set, take};
ghost use Rattle.sheet.specs.Limits.{max_nodes};
ghost use Rattle.leb128.specs.Words.{u32_most};
ghost use Rattle.network.specs.Packed.{stride};
ghost use Rattle.totals.specs.Lengths.{lengths_of};
ghost use Rattle.totals.specs.RunningSums.{rises, RunningSum, with_sums, left_sums};
ghost use Rattle.totals.specs.inside.Chains.{links, LayerChains};

use crate::chains::{LINKS, chain, edge_at};
use crate::lengths::counted;
use crate::starts::{NODES, layer_start, put_starts, rising};
use arcs::Loaded;
use network::layout::STRIDE;
use sheet::limits::MAX_LAYERS;

// The total of a loaded sheet's edges at these places, with room for the sum after each layer.
pub fn sheet_total(sheet: &Loaded, places: &[u16]) -> u32
    ensures { result ≡ min u32_most
        (lengths_of places.now (take (stride * sheet.now.counts.edges) sheet.now.arcs.now)) }
{
    let mut sums = [0u32; MAX_LAYERS as usize];
    let edges = &sheet.arcs[..STRIDE * sheet.counts.edges];
    let first = &sheet.first[..sheet.counts.layers];
    total(edges, first, places, &mut sums)
}

// The total of packed edges: their lengths (runs) times their weights, added; it stays at the greatest number of 32 bits. The last layer
// comes first, by the first nodes of the layers, and the sum after each layer is left in that layer's element of sums; elements behind
// the layers are as they were, and if there are fewer elements than layers, those there are get theirs. If the first nodes or the edges are
// none that a sheet has, all edges are one layer, and sums is as it was.
pub fn total(edges: &[u32], first: &[u16], places: &[u16], sums: &mut [u32]) -> u32
    ensures answer { result ≡ min u32_most (lengths_of places.now edges.now) }
    ensures slice { sums.new ≡ left_sums first.now places.now edges.now
        sums.old }
{
    let mut starts = [0u16; NODES];
    let mut chains = [0u16; LINKS];
    let nodes = places.len().min(NODES);
    add_up(
        edges,
        first,
        places,
        &mut starts[..nodes],
        &mut chains,
        sums,
    )
}

// The same with room for the first node of each node's layer, and for the links.
fn add_up(
    edges: &[u32],
    first: &[u16],
    places: &[u16],
    starts: &mut [u16],
    chains: &mut [u16],
    sums: &mut [u32],
) -> u32
    requires starts_len { length starts.old ≡ min (length places.now) max_nodes }
    requires chains_value { chains.old ≡ replicate links 0 }
    ensures answer { result ≡ min u32_most (lengths_of places.now edges.now) }
    ensures slice { sums.new ≡ left_sums first.now places.now edges.now
        sums.old }
{
    if !rising(first) {
        return add_all(edges, places);
    }
    put_starts(first, starts);
    if !chain(edges, starts, chains) {
        return add_all(edges, places);
    }
    add_layers(edges, first, places, chains, sums)
}

// The sum over all layers, the last one first, and the sum after each in its element.
fn add_layers(edges: &[u32], first: &[u16], places: &[u16], chains: &[u16], sums: &mut [u32]) -> u32
    requires t { T (rises first.now) }
    requires layer_chains { LayerChains first.now edges.now chains.now }
    ensures answer { result ≡ min u32_most (lengths_of places.now edges.now) }
    ensures slice { sums.new ≡ with_sums first.now places.now edges.now
        sums.old }
{
    let mut sum = 0;
    for layer in (1..=first.len()).rev() {
        sum = add_layer(edges, first, places, chains, layer, sum);
        put_sum(sums, layer, sum);
    }
    sum
}

// Leaves the sum after a layer in its element, if the slice has one.
fn put_sum(sums: &mut [u32], layer: usize, sum: u32)
    requires { 1 ≤ layer }
    ensures { sums.new ≡ set sums.old (layer - 1) sum }
{
    // By index: of what get_mut lends, no proof knows what it holds afterwards.
    if layer <= sums.len() {
        sums[layer - 1] = sum;
    }
}

// The sum after a layer, from the sum after the layer below it: the edges whose lower end is in the layer are added.
fn add_layer(
    edges: &[u32],
    first: &[u16],
    places: &[u16],
    chains: &[u16],
    layer: usize,
    sum: u32,
) -> u32
    requires t { T (rises first.now) }
    requires layer_chains { LayerChains first.now edges.now chains.now }
    requires le_layer { (1 ≤ layer) × (layer ≤ length first.now) × RunningSum first.now places.now edges.now (layer + 1) sum }
    ensures { RunningSum first.now places.now edges.now layer result }
{
    let mut result = sum;
    let mut next = edge_at(chains, layer_start(first, layer));
    while let Some(i) = next {
        result = capped(result, counted(edges, places, i));
        next = edge_at(chains, NODES + i);
    }
    result
}

// The sum over all edges in their order, as if they were one layer.
fn add_all(edges: &[u32], places: &[u16]) -> u32
    ensures { result ≡ min u32_most (lengths_of places.now edges.now) }
{
    let mut sum = 0;
    for i in 0..edges.len() / STRIDE {
        sum = capped(sum, counted(edges, places, i));
    }
    sum
}

// A sum that stays at the greatest number of 32 bits.
fn capped(sum: u32, x: usize) -> u32
    ensures { result ≡ min u32_most (sum + x) }
{
    u32::try_from(x.saturating_add(sum as usize)).unwrap_or(u32::MAX)
}
