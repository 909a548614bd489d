// The first nodes of a sheet's layers and the arcs of its network, loaded into lent slices, the arcs in the packed layout.
// Between `usize` and the stored types a number goes by `as`: there is no `From`, and `try_from` would test what is proved.
#![tactic(auto)]

mod edges;
mod fill;
pub mod inside;
mod layers;
pub mod limits;
mod numbers;
mod pack;
mod planning;
mod traces;

ghost use Rattle.std.specs.Prelude.{◌≡◌, length};
ghost use Rattle.leb128.specs.Format.Result.{elements};
ghost use Rattle.sheet.specs.Limits.{max_nodes};
ghost use Rattle.sheet.specs.Reading.{read_sheet};
ghost use Rattle.drawing.specs.laws.Good.{Good};
ghost use Rattle.arcs.specs.Held.{Holds};
ghost use Rattle.arcs.specs.Loading.{loading, fitted, load_answer, load_firsts, load_arcs};

use crate::fill::fill;
use crate::limits::MAX_FIRSTS;
use crate::planning::{plan, put_firsts};
use leb128::Refusal;
use leb128::refusals::SLICE_SHORT;
use network::layout::STRIDE;
use sheet::limits::{MAX_NUMBERS, MAX_WIDTH};

// The counts of a sheet.
#[derive(Clone, Copy)]
pub struct Counts {
    pub layers: usize,
    pub nodes: usize,
    pub edges: usize,
    pub arcs: usize,
}

// Loads a sheet: the first node of each layer and then the count of nodes into the front of one lent slice, the arcs into the front
// of the other. Answers the sheet's counts, or the refusal.
pub fn load(bytes: &[u8], first: &mut [u16], arcs: &mut [u32]) -> Result<Counts, Refusal>
    ensures answer { loading result ≡ load_answer (fitted first.old arcs.old (read_sheet bytes.now)) }
    ensures first { first.new ≡ load_firsts
        (fitted first.old arcs.old (read_sheet bytes.now)) first.old }
    ensures arcs { arcs.new ≡ load_arcs
        (fitted first.old arcs.old (read_sheet bytes.now)) arcs.old }
{
    let mut numbers = [0u16; MAX_NUMBERS];
    let count = sheet::read(bytes, &mut numbers)?;
    load_numbers(&numbers[..count], first, arcs)
}

// A good sheet: the first nodes of its layers and the packed arcs of its network, in the front of lent slices, and its counts.
#[derive(Drop)]
pub struct Loaded<'a> {
    pub first: &'a [u16],
    pub arcs: &'a mut [u32],
    pub counts: Counts,
    ghost holds: { ∥ Holds first.now arcs.now counts ∥₁ },
}

impl Loaded<'_> {
    ghost use Rattle.std.specs.Prelude.{min};
    ghost use Rattle.sheet.specs.Limits.{max_width};
    ghost use Rattle.arcs.specs.HeldSheets.{AtWidth};

    // Sets the sheet's width, to the greatest one that a sheet may have if this one is greater.
    pub fn set_width(&mut self, width: u16)
        ensures { AtWidth self.old (min width max_width) self.new }
    {
        let width = width.min(MAX_WIDTH as u16);
        packed::set_width(self.arcs, self.counts.nodes, width);
    }
}

// The numbers of an arc as they are stored: kink, low and high with a number added.
#[derive(Clone, Copy)]
struct PackedArc {
    tail: u32,
    head: u32,
    kink: u32,
    low: u32,
    high: u32,
}

// An edge off its numbers: its ends, and its strength.
#[derive(Clone, Copy)]
struct ReadEdge {
    upper: usize,
    lower: usize,
    strength: u8,
}

// What bounds every layer: the width of a drawing, and the ground, which is the node behind the last one.
#[derive(Clone, Copy)]
struct Frame {
    width: usize,
    ground: usize,
}

// What is known of a sheet before its arcs are filled in: the counts of its layers, nodes and edges, and the index behind
// the numbers of its layers.
#[derive(Clone, Copy)]
struct Plan {
    layers: usize,
    behind: usize,
    nodes: usize,
    edges: usize,
}

// Loads a good sheet's numbers, where the slices have room for the first nodes and the arcs.
fn load_numbers(numbers: &[u16], first: &mut [u16], arcs: &mut [u32]) -> Result<Counts, Refusal>
    requires { Good max_nodes numbers.now }
    ensures answer { loading result ≡ load_answer (fitted first.old arcs.old (elements numbers.now)) }
    ensures first { first.new ≡ load_firsts
        (fitted first.old arcs.old (elements numbers.now)) first.old }
    ensures arcs { arcs.new ≡ load_arcs
        (fitted first.old arcs.old (elements numbers.now)) arcs.old }
{
    let mut found = [0u16; MAX_FIRSTS];
    let known = plan(numbers, &mut found);
    let layers = known.layers;
    let nodes = known.nodes;
    let edges = known.edges;
    let count = edges + 2 * nodes;
    if first.len() < layers + 1 {
        return Err(Refusal::new(SLICE_SHORT, 0));
    }
    if arcs.len() < STRIDE * count {
        return Err(Refusal::new(SLICE_SHORT, 0));
    }
    put_firsts(&found[..=layers], first);
    fill(numbers, &found, known, arcs);
    Ok(Counts {
        layers,
        nodes,
        edges,
        arcs: count,
    })
}
