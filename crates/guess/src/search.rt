// A search: nodes are reached from a source over arcs that are on their kinks and not used up, and if there is none the
// reached nodes rise until there is.
use crate::layout::{
    EPOCH, HIDDEN_POTENTIAL, LABELLED, LOOKED, MARK, OPEN, PATIENCE, REACHED, RISEN,
};
use crate::slices::Slices;

impl Slices<'_> {
    // Only the source s is reached.
    pub fn restart(&mut self, s: u32) {
        self.show_all();
        self.forget();
        self.reach(s);
    }

    // No node is reached or labelled: a new epoch makes all labels old.
    fn forget(&mut self) {
        let epoch = self.in_room(EPOCH);
        self.set_room(EPOCH, epoch.saturating_add(1));
        self.set_room(RISEN, 0);
        self.set_room(LOOKED, 0);
        self.set_height(OPEN, 0);
        self.set_height(REACHED, 0);
        self.set_height(LABELLED, 0);
    }

    // Shows the potentials of all nodes that were reached.
    fn show_all(&mut self) {
        for j in 0..self.height(REACHED) {
            self.show(self.nth(REACHED, j));
        }
    }

    // Reaches nodes until one has an excess, which is answered, or no more can be reached.
    pub fn seek(&mut self) -> Option<u32> {
        // Lent to a struct of this call, the slices stay in registers; behind self they take a fifth more instructions.
        let mut lent = Slices {
            arcs: self.arcs,
            flows: &mut *self.flows,
            nodes: &mut *self.nodes,
            room: &mut *self.room,
        };
        for _ in 0..PATIENCE {
            if let Some(t) = lent.drain() {
                return Some(t);
            }
            let label = lent.rise()?;
            if let Some(t) = lent.reach_labelled(label) {
                return Some(t);
            }
        }
        None
    }

    // The reached nodes rise until one more can be reached, if one can. Answers its label.
    fn rise(&mut self) -> Option<u32> {
        self.label_all();
        let label = self.least_label()?;
        let more = label.checked_sub(self.in_room(RISEN))?;
        self.raise(more);
        self.set_room(RISEN, label);
        Some(label)
    }

    // Looks at the entries of the open nodes, the newest first, until a node with an excess is reached, which is answered.
    fn drain(&mut self) -> Option<u32> {
        for _ in 0..PATIENCE {
            let u = self.pop(OPEN)?;
            if let Some(t) = self.scan(u) {
                self.push(OPEN, u);
                return Some(t);
            }
        }
        None
    }

    // The reached nodes rise by d.
    fn raise(&mut self, d: u32) {
        for j in 0..self.height(REACHED) {
            self.shift(self.nth(REACHED, j), HIDDEN_POTENTIAL, d, 0);
        }
    }

    // Marks the reached nodes by the order in which they were reached, from 1 on, and shows their potentials.
    pub fn number(&mut self) {
        for j in 0..self.height(REACHED) {
            let u = self.nth(REACHED, j);
            self.set_node(u, MARK, j + 1);
            self.show(u);
        }
    }
}
