// The walk along the grammar, for the reader's bytes and the writer's numbers alike.
ghost use Rattle.std.specs.Prelude.{◌≡◌, ◌≤◌, length};
ghost use Rattle.sheet.specs.Limits.{max_layers};
ghost use Rattle.sheet.specs.Grammar as grammar;
ghost use Rattle.sheet.specs.inside.Cursor.{Counted, «walk_from», walked, Maximum, Separation, Edge, LayersRead};

use crate::limits::{
    MAX_EDGES, MAX_KIND, MAX_LAYER_NODES, MAX_LAYERS, MAX_NODES, MAX_SEPARATION, MAX_WIDTH,
};
use crate::refusals::SEPARATIONS_CROSSED;
use crate::source::limited;
use crate::{Cursor, Input, Step};
use leb128::Refusal;

// The maximum separation, tested against its limits and its minimum.
fn maximum(input: Input, c: Cursor, least: u32) -> Step
    requires { Counted input c }
    ensures { Maximum input.entry c least result }
{
    let (n, next) = limited(input, c, 0, MAX_SEPARATION)?;
    if n != 0 && n < least {
        return Err(Refusal::new(SEPARATIONS_CROSSED, c.at));
    }
    Ok((n, next))
}

// The separations of a neighbouring pair, and with them the value of the maximum.
fn separation(input: Input, c: Cursor) -> Step
    requires { Counted input c }
    ensures { Separation input.entry c result }
{
    let (least, next) = limited(input, c, 1, MAX_SEPARATION)?;
    maximum(input, next, least)
}

// An edge between two of the layers, which have so many nodes each.
fn edge(input: Input, c: Cursor, counts: &[u32]) -> Result<Cursor, Refusal>
    requires counted { Counted input c }
    requires layers { (1 ≤ length counts.now) × (length counts.now ≤ max_layers) }
    ensures { Edge input.entry c counts.now result }
{
    // Each `as`: a `try_from` would test what is proved.
    let layers = counts.len() as u32;
    let (layer, behind_layer) = limited(input, c, 1, layers - 1)?;
    let below = layer as usize;
    let (_, behind_upper) = limited(input, behind_layer, 1, counts[below - 1])?;
    let (_, behind_lower) = limited(input, behind_upper, 1, counts[below])?;
    let (_, behind_kind) = limited(input, behind_lower, 0, MAX_KIND)?;
    Ok(behind_kind)
}

// All n edges, and with them the end of the sheet.
fn edges(input: Input, start: Cursor, counts: &[u32], n: u32) -> Result<Cursor, Refusal>
    requires counted { Counted input start }
    requires layers { (1 ≤ length counts.now) × (length counts.now ≤ max_layers) }
    ensures { walked result ≡ walk_from input.entry start (grammar.edges n counts.now) }
{
    let mut c = start;
    for _ in 0..n {
        c = edge(input, c, counts)?;
    }
    Ok(c)
}

// The layers: each one's count of nodes goes to counts, and its separations follow the count. The answer is the last step.
// The loops are left by a label, and the refusal is kept in a local: document 01 names this form.
fn layers(input: Input, start: Cursor, counts: &mut [u32]) -> Step
    requires { Counted input start }
    ensures { LayersRead input.entry start counts.new result }
{
    let mut c = start;
    let mut step = Ok((0, c));
    let mut room = MAX_NODES;
    'layers: for count in counts.iter_mut() {
        step = limited(input, c, 1, MAX_LAYER_NODES.min(room));
        let Ok((nodes, next)) = step else {
            break 'layers;
        };
        c = next;
        *count = nodes;
        room -= nodes;
        for _ in 1..nodes {
            step = separation(input, c);
            let Ok((_, next)) = step else {
                break 'layers;
            };
            c = next;
        }
    }
    step
}

// The grammar of the sheet, from a cursor to the end that it finds or to the first refusal.
pub fn walk(input: Input, start: Cursor) -> Result<Cursor, Refusal>
    requires { Counted input start }
    ensures { walked result ≡ walk_from input.entry start grammar.sheet }
{
    let (_, behind_width) = limited(input, start, 0, MAX_WIDTH)?;
    let (n, behind_count) = limited(input, behind_width, 1, MAX_LAYERS)?;
    let mut room = [0u32; MAX_LAYERS as usize];
    let counts = &mut room[..n as usize];
    let (_, behind_layers) = layers(input, behind_count, counts)?;
    let (m, behind_total) = limited(input, behind_layers, 0, MAX_EDGES)?;
    edges(input, behind_total, counts, m)
}
