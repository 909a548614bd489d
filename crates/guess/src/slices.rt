// What a guess works on: the arcs, which it reads, and the slices in which it writes. What is behind an end is read as 0 and not
// stored, so no index is wrong.
ghost use Rattle.std.specs.Prelude.{◌<◌};
ghost use Rattle.network.specs.Packed.{stride};

use crate::slots::{narrow, read, write};
use network::layout::{HIGH, LOW, STRIDE};
use network::nodes::NODE_STRIDE;

// The arcs and their flows, the nodes, and the room.
#[derive(Drop)]
pub struct Slices<'a> {
    pub arcs: &'a [u32],
    pub flows: &'a mut [u32],
    pub nodes: &'a mut [u32],
    pub room: &'a mut [u32],
}

impl Slices<'_> {
    // How many nodes there are.
    pub fn node_count(&self) -> u32 {
        narrow(self.nodes.len() / NODE_STRIDE)
    }

    // How many arcs there are.
    pub fn arc_count(&self) -> u32 {
        narrow(self.flows.len())
    }

    // A number of arc i, at one of the offsets of the layout.
    pub fn of_arc(&self, i: u32, offset: usize) -> u32
        requires { offset < stride }
    {
        read(self.arcs, STRIDE * i as usize + offset)
    }

    // Whether arc i takes more than one flow.
    pub fn is_flexible(&self, i: u32) -> bool {
        self.of_arc(i, LOW) < self.of_arc(i, HIGH)
    }

    // The flow of arc i.
    pub fn flow(&self, i: u32) -> u32 {
        read(self.flows, i as usize)
    }

    // Stores the flow of arc i.
    pub fn set_flow(&mut self, i: u32, x: u32) {
        write(self.flows, i as usize, x);
    }

    // Number k of node v.
    pub fn of_node(&self, v: u32, k: u32) -> u32 {
        read(self.nodes, v as usize + k as usize)
    }

    // Stores number k of node v.
    pub fn set_node(&mut self, v: u32, k: u32, a: u32) {
        write(self.nodes, v as usize + k as usize, a);
    }

    // Number k of node v grows by one number and falls by another.
    pub fn shift(&mut self, v: u32, k: u32, more: u32, less: u32) {
        let a = self.of_node(v, k) as usize + more as usize;
        if let Some(rest) = a.checked_sub(less as usize) {
            self.set_node(v, k, narrow(rest));
        }
    }

    // Number j of the room.
    pub fn in_room(&self, j: usize) -> u32 {
        read(self.room, j)
    }

    // Stores number j of the room.
    pub fn set_room(&mut self, j: usize, a: u32) {
        write(self.room, j, a);
    }
}
