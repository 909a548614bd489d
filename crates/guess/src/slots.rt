// Numbers of slices by index: what is behind the end is read as 0 and not stored, so no index is wrong.
use network::nodes::NODE_STRIDE;

// Number j of a slice.
pub fn read(list: &[u32], j: usize) -> u32 {
    list.get(j).copied().unwrap_or(0)
}

// Stores number j of a slice.
pub fn write(list: &mut [u32], j: usize, a: u32) {
    if let Some(x) = list.get_mut(j) {
        *x = a;
    }
}

// A number in 32 bits; the greatest if it is greater.
pub fn narrow(a: usize) -> u32 {
    u32::try_from(a).unwrap_or(u32::MAX)
}

// Where the numbers of node k begin.
pub fn place(k: u32) -> u32 {
    narrow(NODE_STRIDE * k as usize)
}
