// Where the nodes of a number list stand. A number behind the end of the list counts as 0.
ghost use Rattle.std.specs.Prelude.{◌≡◌, ◌<◌, get_or};
ghost use Rattle.leb128.specs.Limits.{list_limit};
ghost use Rattle.sheet.specs.Layout.{layer_size};
ghost use Rattle.sheet.specs.Nodes.{standing, «node_of»};

use crate::Location;
use crate::layout::{FIRST_LAYER, LAYERS, SEPARATION_STRIDE, SEPARATIONS};

// The number at an index; 0 behind the last one.
fn number(numbers: &[u16], at: usize) -> usize
    ensures { (result ≡ get_or numbers.now at 0) × (result < list_limit) }
{
    numbers.get(at).map_or(0, |n| usize::from(*n))
}

// How many numbers a layer of so many nodes has.
fn layer_size(nodes: usize) -> usize
    requires { nodes < list_limit }
    ensures { result ≡ layer_size nodes }
{
    SEPARATIONS + SEPARATION_STRIDE * nodes.saturating_sub(1)
}

// The layer of node v and its position there; none if there is no such node.
pub fn locate(numbers: &[u16], v: usize) -> Option<Location>
    ensures { standing result ≡ node_of numbers.now v }
{
    let mut at = FIRST_LAYER;
    let mut rest = v;
    for above in 0..number(numbers, LAYERS) {
        let count = number(numbers, at);
        if rest < count {
            return Some(Location {
                layer: above + 1,
                position: rest + 1,
            });
        }
        rest -= count;
        at += layer_size(count);
    }
    None
}
