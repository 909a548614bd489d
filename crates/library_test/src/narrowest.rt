// The operation of the minimum width.
use crate::cases::with_bytes;
use crate::show;

// `N`: the payload is the bytes of a sheet whose minimum width is told. Answers whether it is whole bytes.
pub fn narrowest_case(payload: &[u8]) -> bool {
    with_bytes(payload, |bytes| show::minimum(engine::minimum_width(bytes)))
}
