// The order of a coordinate file's numbers: which one comes next.
ghost use Rattle.std.specs.Prelude.{◌≡◌, ℕ, true};
ghost use Rattle.sheet.specs.inside.Awaited.{more as «more-awaited», range_of, behind as «state-behind», InRange};
ghost use Rattle.leb128.specs.Grammar.{Grammar};
ghost use Rattle.leb128.specs.Grammar.Grammar.{done};
ghost use Rattle.sheet.specs.inside.Order.{Next, SheetLeft, AwaitedLeft};
ghost use Rattle.sheet.specs.declared.Format.{Format};
ghost use Rattle.sheet.specs.declared.Format.TheVariants.{Sheet, Coordinates};
ghost use Rattle.sheet.specs.laws.Plain.{plain_goes};
ghost use Rattle.sheet.specs.laws.Awaited.{awaited_goes};

use crate::limits::{MAX_COORDINATE, MAX_LAYER_NODES, MAX_LAYERS, MAX_NODES};
use crate::{Awaited, Plain, Range};

impl Awaited {
    // Whether a number comes next.
    pub fn more(self) -> bool
        ensures { result ≡ more-awaited self }
    {
        match self {
            Awaited::Nodes {
                layers,
                nodes: 0,
                ..
            } => 0 < layers,
            _ => true,
        }
    }

    // The range of the number that comes next.
    pub fn range(self) -> Range
        ensures { result ≡ range_of self }
    {
        match self {
            Awaited::Layers => Range {
                base: 0,
                low: 1,
                high: MAX_LAYERS,
            },
            Awaited::Nodes { nodes: 0, room, .. } => Range {
                base: 0,
                low: 1,
                high: MAX_LAYER_NODES.min(room),
            },
            Awaited::Nodes { base, low, .. } => Range {
                base,
                low,
                high: MAX_COORDINATE,
            },
        }
    }

    // What comes behind a number.
    pub fn following(self, n: u32) -> Awaited
        requires more { more-awaited self ≡ true }
        requires in_range { InRange self n }
        ensures { result ≡ state-behind self n }
    {
        match self {
            Awaited::Layers => Awaited::Nodes {
                layers: n,
                room: MAX_NODES,
                nodes: 0,
                base: 0,
                low: 0,
            },
            Awaited::Nodes {
                layers,
                room,
                nodes: 0,
                ..
            } => Awaited::Nodes {
                layers: layers - 1,
                room: room - n,
                nodes: n,
                base: 0,
                low: 0,
            },
            Awaited::Nodes {
                layers,
                room,
                nodes,
                ..
            } => Awaited::Nodes {
                layers,
                room,
                nodes: nodes - 1,
                base: n,
                low: n + 1,
            },
        }
    }
}

// Which number of a format comes next: how the bytes hold it, and what follows it.
pub trait Order: Copy {
    // the format
    ghost format: { Format };

    // what the bytes of the next number lie above
    ghost base_of: { Self → ℕ };

    // the state behind a number
    ghost after: { Self → ℕ → Self };

    // this grammar is left
    ghost Leads: { Self → Grammar → Type 0 };

    // this number may come next
    ghost Fits: { Self → ℕ → Type 0 };

    // What the bytes of the next number hold it above.
    fn base(self) -> u32
        ensures { result ≡ base_of self };

    // What comes behind a number.
    fn behind(self, n: u32) -> Self
        requires { Fits self n }
        ensures { result ≡ after self n };

    // where the grammar goes on, a number comes next
    ghost goes: { (s : Self) (grammar : Grammar) → Leads s grammar → (grammar ≡ done → ⊥) → Next base_of after Leads Fits s grammar };
}

impl Order for Plain {
    ghost format = { Sheet };

    ghost base_of = { λ s. 0 };

    ghost after = { λ s n. s };

    ghost Leads = { SheetLeft };

    ghost Fits = { λ s n. Unit };

    ghost goes = { plain_goes };

    fn base(self) -> u32 {
        0
    }

    fn behind(self, _n: u32) -> Plain {
        self
    }
}

impl Order for Awaited {
    ghost format = { Coordinates };

    ghost base_of = { λ s. (range_of s).base };

    ghost after = { state-behind };

    ghost Leads = { AwaitedLeft };

    ghost Fits = { λ s n. (more-awaited s ≡ true) × InRange s n };

    ghost goes = { awaited_goes };

    fn base(self) -> u32 {
        self.range().base
    }

    fn behind(self, n: u32) -> Awaited {
        self.following(n)
    }
}
