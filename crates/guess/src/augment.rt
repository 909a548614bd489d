// Moving flow to a deficit, along the arcs over which a search reached an excess.
use crate::layout::{DEFICIT, DEFICIT_ZERO, PARENT, PATIENCE};
use crate::slices::Slices;
use crate::way::Way;
use std::ops::ControlFlow;

impl Slices<'_> {
    // Moves something to the source s from a node that is reached and has an excess. The search ends if nothing is moved, if an arc
    // is used up or if no deficit is left; then it says whether something is moved.
    pub fn augment(&mut self, s: u32) -> ControlFlow<bool> {
        let Some(t) = self.seek() else {
            return ControlFlow::Break(false);
        };
        let d = self.residual(s, t);
        if d == 0 {
            return ControlFlow::Break(false);
        }
        let used_up = self.carry(s, t, d);
        self.shift(s, DEFICIT, 0, d);
        self.shift(t, DEFICIT, d, 0);
        if used_up || self.of_node(s, DEFICIT) == DEFICIT_ZERO {
            return ControlFlow::Break(true);
        }
        ControlFlow::Continue(())
    }

    // How much can be moved from t to s: the least of excess, deficit and what the arcs between them take; 0 if they do not meet.
    fn residual(&self, s: u32, t: u32) -> u32 {
        let excess = self.of_node(t, DEFICIT).abs_diff(DEFICIT_ZERO);
        let deficit = self.of_node(s, DEFICIT).abs_diff(DEFICIT_ZERO);
        let mut d = excess.min(deficit);
        let mut v = t;
        for _ in 0..PATIENCE {
            if v == s {
                return d;
            }
            let way = Way::of(self.of_node(v, PARENT));
            d = d.min(self.flow(way.arc).abs_diff(way.limit(self)));
            v = way.start(self);
        }
        0
    }

    // Moves d over the arcs from t back to s, and says whether one of them is used up.
    fn carry(&mut self, s: u32, t: u32, d: u32) -> bool {
        let mut used_up = false;
        let mut v = t;
        for _ in 0..PATIENCE {
            if v == s {
                return used_up;
            }
            let way = Way::of(self.of_node(v, PARENT));
            let x = way.moved(self.flow(way.arc), d);
            self.set_flow(way.arc, x);
            used_up |= x == way.limit(self);
            v = way.start(self);
        }
        true
    }
}
