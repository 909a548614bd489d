// A guess of flows, of potentials and of an order in which each node is held by an earlier one: the primal-dual method, with
// searches from the rightmost node with a deficit. Nothing is proved of it but that it ends and stays within its slices.
use crate::layout::{EPOCH, PATIENCE, REACHED};
use crate::slices::Slices;
use crate::slots::narrow;
use network::nodes::NODE_STRIDE;
use std::ops::ControlFlow;

// The guess, from the potentials in the nodes. It leaves the potential, the place in the order (from 1 on, ground first) and twice
// the arc by which a node is held, where the circulation has potential, order and parent.
pub fn guess(arcs: &[u32], flows: &mut [u32], nodes: &mut [u32], room: &mut [u32]) {
    let mut slices = Slices {
        arcs,
        flows,
        nodes,
        room,
    };
    slices.prepare();
    slices.serve_all();
    slices.flood();
}

impl Slices<'_> {
    // First flows, the entries of each node, and the nodes with a deficit.
    fn prepare(&mut self) {
        self.begin();
        self.enter_all();
        self.line_up();
        self.set_room(EPOCH, 0);
        self.set_height(REACHED, 0);
    }

    // Reaches every node from ground, in the order that is left.
    fn flood(&mut self) {
        if let Some(ground) = self.nodes.len().checked_sub(NODE_STRIDE) {
            self.restart(narrow(ground));
            self.seek();
            self.number();
        }
    }

    // Serves the nodes with a deficit until there is none or a search fails.
    fn serve_all(&mut self) {
        for _ in 0..PATIENCE {
            let Some(s) = self.rightmost() else {
                return;
            };
            if !self.serve(s) {
                return;
            }
        }
    }

    // One search from node s, which has a deficit. It goes on as long as no arc is used up and a deficit is left; says whether
    // something is moved at its end.
    fn serve(&mut self, s: u32) -> bool {
        self.restart(s);
        for _ in 0..PATIENCE {
            if let ControlFlow::Break(is_moved) = self.augment(s) {
                return is_moved;
            }
        }
        false
    }
}
