// The way over an arc from one of its ends to the other: a search goes along it, and flow is moved against it.
use crate::slices::Slices;
use crate::slots::place;
use network::layout::{HEAD, HIGH, KINK_ZERO, LOW, TAIL};

// An end of an arc.
#[derive(Clone, Copy)]
pub enum Side {
    Tail,
    Head,
}

// An arc, and the end at which the way starts.
#[derive(Clone, Copy)]
pub struct Way {
    pub arc: u32,
    pub side: Side,
}

impl Way {
    // The way that a number stands for: twice the arc, one more if the way starts at its head.
    pub fn of(number: u32) -> Way {
        let side = if number % 2 == 1 {
            Side::Head
        } else {
            Side::Tail
        };
        Way {
            arc: number / 2,
            side,
        }
    }

    // The node at which the way starts.
    pub fn start(self, slices: &Slices<'_>) -> u32 {
        match self.side {
            Side::Tail => place(slices.of_arc(self.arc, TAIL)),
            Side::Head => place(slices.of_arc(self.arc, HEAD)),
        }
    }

    // The flow with which nothing more can be moved against the way.
    pub fn limit(self, slices: &Slices<'_>) -> u32 {
        match self.side {
            Side::Tail => slices.of_arc(self.arc, LOW),
            Side::Head => slices.of_arc(self.arc, HIGH),
        }
    }

    // What a flow x becomes if d is moved against the way.
    pub fn moved(self, x: u32, d: u32) -> u32 {
        match self.side {
            Side::Tail => x.saturating_sub(d),
            Side::Head => x.saturating_add(d),
        }
    }

    // How far ahead of the node where the way ends the one where it starts stands, with KINK_ZERO added, if the arc is on this kink.
    pub fn ahead(self, kink: u32) -> u32 {
        match self.side {
            Side::Tail => (2 * KINK_ZERO as u32).saturating_sub(kink),
            Side::Head => kink,
        }
    }
}
