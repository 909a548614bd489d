// What parallel edges carry together, by a table with a number for each pair of ends: first every edge raises the number of its ends to
// its own strength, then every edge in turn takes that number and leaves 0.
ghost use Rattle.std.specs.Prelude.{◌≡◌, [], map, ◌+◌, ◌*◌, ◌≤◌, ◌<◌, max, length, get_or, set, drop};
ghost use Rattle.leb128.specs.inside.Storing.{Puts};
ghost use Rattle.sheet.specs.Limits.{max_nodes};
ghost use Rattle.sheet.specs.Layout.{edge_stride};
ghost use Rattle.network.specs.Packed.{stride, packs};
ghost use Rattle.drawing.specs.Sheet.{«edge_of», edges_of};
ghost use Rattle.drawing.specs.Traces.{traces};
ghost use Rattle.drawing.specs.Arcs.{edge_arc};
ghost use Rattle.drawing.specs.laws.Good.{GoodEdge, GoodEdges};
ghost use Rattle.arcs.specs.inside.Traces.{strongest, «slot_of», slot, Rising, Tabled, Takes};

use crate::ReadEdge;
use crate::edges::edge_at;
use crate::limits::FEW_NODES;
use crate::pack::{put_arc, strength_arc};
use sheet::layout::EDGE_STRIDE;
use sheet::limits::{MAX_LAYER_NODES, MAX_NODES};

// How many numbers a node has in the table.
const SLOTS_OF_NODE: usize = MAX_LAYER_NODES as usize;

// The numbers of the large table, which serves every sheet.
pub const SLOTS: usize = SLOTS_OF_NODE * MAX_NODES as usize;

// The numbers of the small table, which serves small sheets.
pub const FEW_SLOTS: usize = SLOTS_OF_NODE * FEW_NODES;

// Every edge raises the number of its ends, the last edge first.
pub fn gather(numbers: &[u16], start: usize, count: usize, first: &[u16], table: &mut [u8])
    requires good_edges { GoodEdges max_nodes first.now count (drop start numbers.now) }
    requires count_in_bounds { start + edge_stride * count ≤ length numbers.now }
    requires rising { Rising first.now }
    requires tabled { Tabled first.now table.old (strongest []) }
    ensures { Tabled first.now table.new
        (strongest (edges_of first.now count (drop start numbers.now))) }
{
    for i in (0..count).rev() {
        let e = edge_at(numbers, start + EDGE_STRIDE * i, first);
        raise(table, e);
    }
}

// Writes the arcs of what count edges carry into the front of the slice, the first edge first; answers the index behind them.
pub fn put_edges(
    numbers: &[u16],
    start: usize,
    count: usize,
    first: &[u16],
    table: &mut [u8],
    arcs: &mut [u32],
) -> usize
    requires good_edges { GoodEdges max_nodes first.now count (drop start numbers.now) }
    requires count_in_bounds { (start + edge_stride * count ≤ length numbers.now) × (stride * count ≤ length arcs.old) }
    requires rising { Rising first.now }
    requires tabled { Tabled first.now table.old (strongest (edges_of first.now count (drop start numbers.now))) }
    ensures { Puts arcs.old 0
        (packs (map edge_arc (traces (edges_of first.now count (drop start numbers.now))))) arcs.new result }
{
    let mut n = 0;
    for i in 0..count {
        n = put_edge(numbers, start + EDGE_STRIDE * i, first, table, arcs, n);
    }
    n
}

// Writes the arc of what the edge at an index carries; answers the index behind the arc.
fn put_edge(
    numbers: &[u16],
    at: usize,
    first: &[u16],
    table: &mut [u8],
    arcs: &mut [u32],
    n: usize,
) -> usize
    requires good_edge { GoodEdge max_nodes first.now (drop at numbers.now) }
    requires edge_stride_in_bounds { (at + edge_stride ≤ length numbers.now) × (n + stride ≤ length arcs.old)
        × (slot (edge_of first.now (drop at numbers.now)) < length table.old) }
    ensures { Takes (edge_of first.now (drop at numbers.now)) arcs.old n arcs.new result
        table.old table.new }
{
    let e = edge_at(numbers, at, first);
    let strength = take(table, e);
    put_arc(arcs, n, strength_arc(e.upper, e.lower, strength))
}

// Raises the number of an edge's ends to the edge's strength.
fn raise(table: &mut [u8], e: ReadEdge)
    requires { (slot_of e.upper e.lower < length table.old) × (e.upper < max_nodes) }
    ensures { table.new ≡ set table.old (slot_of e.upper e.lower)
        (max e.strength (get_or table.old (slot_of e.upper e.lower) 0)) }
{
    let at = slot(e.upper, e.lower);
    table[at] = e.strength.max(table[at]);
}

// Takes the number of an edge's ends and leaves 0.
fn take(table: &mut [u8], e: ReadEdge) -> u8
    requires { (slot_of e.upper e.lower < length table.old) × (e.upper < max_nodes) }
    ensures answer { result ≡ get_or table.old (slot_of e.upper e.lower) 0 }
    ensures slice { table.new ≡ set table.old (slot_of e.upper e.lower) 0 }
{
    let at = slot(e.upper, e.lower);
    let found = table[at];
    table[at] = 0;
    found
}

// The index of two ends in the table. Parallel edges share it; others do not, since the upper end stands in one layer, and the next
// layer has no more nodes than a node has numbers.
fn slot(upper: usize, lower: usize) -> usize
    requires { upper < max_nodes }
    ensures { result ≡ slot_of upper lower }
{
    SLOTS_OF_NODE * upper + lower % SLOTS_OF_NODE
}
