// The operation of many widths.
use crate::cases::with_bytes;
use crate::{hex, show};

// The widths that a case may have: more than a list may have.
const WIDTHS: usize = 80;

// The totals that a case may have room for.
const TOTALS: usize = 80;

// What every total holds before the call.
const TOTAL_BEFORE: u32 = 2779096485;

// `T`: the payload is so many widths, and the bytes of a sheet whose totals at them are written into a slice of so much room. Prints
// the answer and the totals. Answers whether it is that.
pub fn widths_case(room: usize, count: usize, payload: &[u8]) -> bool {
    let sheet_at = 8 * count.min(WIDTHS);
    if payload.len() < sheet_at {
        return false;
    }
    let mut widths = [0u32; WIDTHS];
    let n = hex::list(&payload[..sheet_at], &mut widths);
    with_bytes(&payload[sheet_at..], |bytes| {
        let mut totals = [TOTAL_BEFORE; TOTALS];
        let lent = &mut totals[..room.min(TOTALS)];
        show::answer(rolls::totals(bytes, &widths[..n], lent));
        show::list(lent);
    })
}
