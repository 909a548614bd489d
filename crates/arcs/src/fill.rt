// All arcs of a good sheet.
ghost use Rattle.std.specs.Prelude.{◌≡◌, ◌+◌, ◌*◌, ◌≤◌, length};
ghost use Rattle.sheet.specs.Limits.{max_layer_nodes, max_nodes};
ghost use Rattle.network.specs.Packed.{stride};
ghost use Rattle.drawing.specs.Sheet.{sheet_of};
ghost use Rattle.drawing.specs.Arcs.{network};
ghost use Rattle.drawing.specs.laws.Good.{Good};
ghost use Rattle.arcs.specs.inside.Plans.{Planned, written};
ghost use Rattle.arcs.specs.inside.Traces.{Blank};

use crate::layers::put_layers;
use crate::limits::FEW_NODES;
use crate::numbers::number;
use crate::traces::{FEW_SLOTS, SLOTS, gather, put_edges};
use crate::{Frame, Plan};
use sheet::layout::{EDGES, WIDTH};

// Writes the arcs of a sheet into the front of the slice, in the order of the certificate (document 01's pull
// list): the edges, then the layers.
pub fn fill(numbers: &[u16], first: &[u16], plan: Plan, arcs: &mut [u32])
    requires good { Good max_nodes numbers.now }
    requires planned { Planned numbers.now first.now plan }
    requires nodes_in_bounds { stride * (plan.edges + 2 * plan.nodes) ≤ length arcs.old }
    ensures { arcs.new ≡ written (network (sheet_of numbers.now)) arcs.old }
{
    if plan.nodes <= FEW_NODES {
        return fill_with::<FEW_SLOTS>(numbers, first, plan, arcs);
    }
    fill_with::<SLOTS>(numbers, first, plan, arcs)
}

// The same with a table of so many numbers.
fn fill_with<const NUMBERS: usize>(numbers: &[u16], first: &[u16], plan: Plan, arcs: &mut [u32])
    requires good { Good max_nodes numbers.now }
    requires planned { Planned numbers.now first.now plan }
    requires nodes_in_bounds { stride * (plan.edges + 2 * plan.nodes) ≤ length arcs.old }
    requires enough { (max_layer_nodes * plan.nodes ≤ NUMBERS) × (NUMBERS ≤ max_layer_nodes * max_nodes) }
    ensures { arcs.new ≡ written (network (sheet_of numbers.now)) arcs.old }
{
    let mut table = [0u8; NUMBERS];
    fill_by(numbers, first, plan, &mut table, arcs)
}

// The same with a table of zeros for the nodes.
fn fill_by(numbers: &[u16], first: &[u16], plan: Plan, table: &mut [u8], arcs: &mut [u32])
    requires good { Good max_nodes numbers.now }
    requires planned { Planned numbers.now first.now plan }
    requires nodes_in_bounds { stride * (plan.edges + 2 * plan.nodes) ≤ length arcs.old }
    requires blank { Blank plan.nodes table.old }
    ensures { arcs.new ≡ written (network (sheet_of numbers.now)) arcs.old }
{
    let start = plan.behind + EDGES;
    let firsts = &first[..=plan.layers];
    let frame = Frame {
        width: number(numbers, WIDTH),
        ground: plan.nodes,
    };
    gather(numbers, start, plan.edges, firsts, table);
    let n = put_edges(numbers, start, plan.edges, firsts, table, arcs);
    put_layers(numbers, plan.layers, frame, arcs, n);
}
