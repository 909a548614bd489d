// The stages of drawing a loaded sheet: flows and the leftmost least potentials, then places and list.
ghost use Rattle.std.specs.Prelude.{◌≡◌, ◌+◌, ◌*◌, ◌≤◌, ◌<◌, length};
ghost use Rattle.network.specs.Nodes.{node_stride};
ghost use Rattle.network.specs.Packed.{word_limit};
ghost use Rattle.engine.specs.inside.Stages.{FillsHeld, SettlesHeld};

use crate::limits::{FEW_NODE_NUMBERS, FEW_ROOM, MAX_NODE_NUMBERS, MAX_ROOM};
use crate::results::{put_list, put_places};
use arcs::Loaded;
use arcs::limits::{FEW_ARCS, MAX_ARCS};
use network::Unsolved;
use network::nodes::NODE_STRIDE;

// Fills places and list, or answers that there is no drawing to fill them with; the total is left to the caller.
pub fn draw_arcs(sheet: &Loaded, places: &mut [u16], list: &mut [i32]) -> Result<(), Unsolved>
    requires { (sheet.now.counts.nodes ≤ length places.old) × (sheet.now.counts.arcs ≤ length list.old) }
    ensures { FillsHeld sheet.now places.old list.old
        places.new list.new result }
{
    if sheet.counts.arcs <= FEW_ARCS {
        return draw_in::<FEW_ARCS, FEW_NODE_NUMBERS, FEW_ROOM>(sheet, places, list);
    }
    draw_in::<MAX_ARCS, MAX_NODE_NUMBERS, MAX_ROOM>(sheet, places, list)
}

// The same in arrays of these lengths: for flows, for the numbers of the nodes, and room to solve in.
fn draw_in<const ARCS: usize, const NUMBERS: usize, const ROOM: usize>(
    sheet: &Loaded,
    places: &mut [u16],
    list: &mut [i32],
) -> Result<(), Unsolved>
    requires nodes_in_bounds { (sheet.now.counts.nodes ≤ length places.old) × (sheet.now.counts.arcs ≤ length list.old) }
    requires enough { (sheet.now.counts.arcs ≤ ARCS) × (node_stride * (sheet.now.counts.nodes + 1) ≤ NUMBERS)
        × (sheet.now.counts.nodes + 1 ≤ ROOM) }
    requires small { (ARCS < word_limit) × (NUMBERS < word_limit) × (ROOM < word_limit) }
    ensures { FillsHeld sheet.now places.old list.old
        places.new list.new result }
{
    let mut flows = [0u32; ARCS];
    let mut nodes = [0u32; NUMBERS];
    let mut room = [0u32; ROOM];
    let counts = sheet.counts;
    let flows = &mut flows[..counts.arcs];
    let nodes = &mut nodes[..NODE_STRIDE * (counts.nodes + 1)];
    settle(sheet, flows, nodes, &mut room)?;
    put_places(nodes, counts.nodes, places);
    put_list(flows, list);
    Ok(())
}

// Solves: flows and the leftmost least potentials, in just a flow for each arc and six numbers for each node and ground.
fn settle(
    sheet: &Loaded,
    flows: &mut [u32],
    nodes: &mut [u32],
    room: &mut [u32],
) -> Result<(), Unsolved>
    requires flows_len { (length flows.old ≡ sheet.now.counts.arcs) × (length nodes.old ≡ node_stride * (sheet.now.counts.nodes + 1)) }
    requires nodes_in_bounds { sheet.now.counts.nodes + 1 ≤ length room.old }
    ensures { SettlesHeld sheet.now flows.new nodes.new result }
{
    leftmost::solve(sheet.arcs, flows, nodes, room)
}
