// Stacks of nodes in the room: first their heights, and further on their nodes, one of each in turn.
use crate::layout::{STACK_COUNT, STACKS};
use crate::slices::Slices;

impl Slices<'_> {
    // How many nodes are on a stack.
    pub fn height(&self, stack: u32) -> u32 {
        self.in_room(stack as usize)
    }

    // Sets how many nodes are on a stack.
    pub fn set_height(&mut self, stack: u32, k: u32) {
        self.set_room(stack as usize, k);
    }

    // Node j of a stack.
    pub fn nth(&self, stack: u32, j: u32) -> u32 {
        self.in_room(STACKS + STACK_COUNT * j as usize + stack as usize)
    }

    // Stores node j of a stack.
    pub fn set_nth(&mut self, stack: u32, j: u32, v: u32) {
        self.set_room(STACKS + STACK_COUNT * j as usize + stack as usize, v);
    }

    // Puts node v on a stack.
    pub fn push(&mut self, stack: u32, v: u32) {
        let k = self.height(stack);
        self.set_nth(stack, k, v);
        self.set_height(stack, k.saturating_add(1));
    }

    // Takes the last node from a stack.
    pub fn pop(&mut self, stack: u32) -> Option<u32> {
        let k = self.height(stack).checked_sub(1)?;
        self.set_height(stack, k);
        Some(self.nth(stack, k))
    }
}
