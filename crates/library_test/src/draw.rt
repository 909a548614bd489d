// The engine's operation: draws a sheet into slices that hold a pattern, and has the checker look at what it wrote.
use crate::cases::{LIST, PLACES, with_bytes};
use crate::show;

// What every place holds before the call: more than any width.
const PLACE_BEFORE: u16 = 42405;

// What every number of the list holds before the call.
const NUMBER_BEFORE: i32 = -1515870811;

// Draws a sheet into the slices, and prints the answer, the places, the list, and the checker's answer.
fn draw_sheet(bytes: &[u8], places: &mut [u16], list: &mut [i32]) {
    show::drawing(engine::draw(bytes, places, list));
    show::list(places);
    show::text(b";");
    show::list(list);
    show::text(b"; ");
    show::verdict(checker::check(bytes, places, list));
}

// `D`: the payload is the bytes of a sheet to draw into so many places and a list of so many numbers. Answers whether it
// is whole bytes.
pub fn draw_case(count: usize, length: usize, payload: &[u8]) -> bool {
    with_bytes(payload, |bytes| {
        let mut places = [PLACE_BEFORE; PLACES];
        let mut list = [NUMBER_BEFORE; LIST];
        draw_sheet(
            bytes,
            &mut places[..count.min(PLACES)],
            &mut list[..length.min(LIST)],
        );
    })
}
