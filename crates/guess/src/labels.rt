// Nodes that are reached, and nodes that will be: a label says how far the source has risen then.
use crate::layout::{
    DEFICIT, DEFICIT_ZERO, ENTRY_NODE, EPOCH, FIRST, HIDDEN, HIDDEN_POTENTIAL, LABEL, LABELLED,
    LOOKED, MARK, OPEN, PARENT, POTENTIAL, REACHED, RISEN,
};
use crate::slices::Slices;
use crate::slots::narrow;
use crate::way::Way;
use network::layout::{KINK, KINK_ZERO};

impl Slices<'_> {
    // Node w is reached. It is answered if it has an excess.
    pub fn reach(&mut self, w: u32) -> Option<u32> {
        self.hide(w);
        self.push(OPEN, w);
        self.push(REACHED, w);
        (self.of_node(w, DEFICIT) < DEFICIT_ZERO).then_some(w)
    }

    // Hides the potential of node w, which is reached.
    fn hide(&mut self, w: u32) {
        self.set_node(w, HIDDEN_POTENTIAL, self.of_node(w, POTENTIAL));
        self.set_node(w, POTENTIAL, HIDDEN);
    }

    // Shows the potential of node w, which was reached.
    pub fn show(&mut self, w: u32) {
        self.set_node(w, POTENTIAL, self.of_node(w, HIDDEN_POTENTIAL));
    }

    // Whether node w is reached.
    fn is_reached(&self, w: u32) -> bool {
        self.of_node(w, POTENTIAL) == HIDDEN
    }

    // Labels the nodes beside the reached ones.
    pub fn label_all(&mut self) {
        let count = self.height(REACHED);
        for k in self.in_room(LOOKED)..count {
            self.label_from(self.nth(REACHED, k));
        }
        self.set_room(LOOKED, count);
    }

    // Labels the nodes beside node u.
    fn label_from(&mut self, u: u32) {
        let end = self.end_after(u).min(self.room.len());
        for j in self.of_node(u, FIRST) as usize..end {
            self.look(u, self.in_room(j));
        }
    }

    // Labels the node of an entry of node u, if it is not reached and the arc not used up.
    fn look(&mut self, u: u32, entry: u32) {
        let w = entry / ENTRY_NODE;
        let way = Way::of(entry % ENTRY_NODE);
        if self.is_reached(w) || self.flow(way.arc) == way.limit(self) {
            return;
        }
        let stands = self.of_node(u, HIDDEN_POTENTIAL) as usize + KINK_ZERO;
        let ahead = way.ahead(self.of_arc(way.arc, KINK));
        let asks = self.of_node(w, POTENTIAL) as usize + ahead as usize;
        if let Some(more) = asks.checked_sub(stands) {
            let risen = narrow(self.in_room(RISEN) as usize + more);
            self.label(w, entry % ENTRY_NODE, risen);
        }
    }

    // Node w can be reached over an arc once the source has risen so far; the least label is kept.
    fn label(&mut self, w: u32, parent: u32, risen: u32) {
        if self.mark(w) || risen < self.of_node(w, LABEL) {
            self.set_node(w, LABEL, risen);
            self.set_node(w, PARENT, parent);
        }
    }

    // Node w will have a label; whether it had none.
    fn mark(&mut self, w: u32) -> bool {
        let epoch = self.in_room(EPOCH);
        if self.of_node(w, MARK) == epoch {
            return false;
        }
        self.set_node(w, MARK, epoch);
        self.push(LABELLED, w);
        true
    }

    // The least label of a node that is not reached, if there is one; the nodes that are reached leave the stack.
    pub fn least_label(&mut self) -> Option<u32> {
        let mut least = None;
        let mut kept: u32 = 0;
        for j in 0..self.height(LABELLED) {
            let w = self.nth(LABELLED, j);
            if !self.is_reached(w) {
                let label = self.of_node(w, LABEL);
                least = Some(least.map_or(label, |other: u32| other.min(label)));
                self.set_nth(LABELLED, kept, w);
                kept += 1;
            }
        }
        self.set_height(LABELLED, kept);
        least
    }

    // Reaches the nodes of a label until one has an excess, which is answered.
    pub fn reach_labelled(&mut self, risen: u32) -> Option<u32> {
        for j in 0..self.height(LABELLED) {
            let w = self.nth(LABELLED, j);
            if self.of_node(w, LABEL) == risen {
                if let Some(t) = self.reach(w) {
                    return Some(t);
                }
            }
        }
        None
    }
}
