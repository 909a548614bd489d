// The numbers of a good sheet's list: the one at an index, and how many a layer takes.
ghost use Rattle.std.specs.Prelude.{◌≡◌, ◌<◌, ◌≤◌, length, get_or};
ghost use Rattle.leb128.specs.Words.{Small};
ghost use Rattle.sheet.specs.Limits.{max_nodes};
ghost use Rattle.sheet.specs.Layout.{layer_size};

use sheet::layout::{SEPARATION_STRIDE, SEPARATIONS};

// The number at an index, with its range.
pub fn number(numbers: &[u16], at: usize) -> usize
    requires { at < length numbers.now }
    ensures { Small result (get_or numbers.now at 0) }
{
    usize::from(numbers[at])
}

// How many numbers a layer of so many nodes has.
pub fn layer_size(nodes: usize) -> usize
    requires { (1 ≤ nodes) × (nodes ≤ max_nodes) }
    ensures { result ≡ layer_size nodes }
{
    SEPARATIONS + SEPARATION_STRIDE * (nodes - 1)
}
