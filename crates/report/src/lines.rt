// The lines of a drawing and of a refusal.
ghost use Rattle.std.specs.Prelude.{◌≤◌, length};
ghost use Rattle.leb128.specs.inside.Storing.{Room, Puts};
ghost use Rattle.sheet.specs.Layout.{node_count, LaidOut};
ghost use Rattle.drawing.specs.Sheet.{sheet_of};
ghost use Rattle.report.specs.Text.{total_line, node_line, layers_lines, drawing_lines, refusal_line};

use crate::writer::{put, put_field};
use leb128::Refusal;
use sheet::{Location, locate};

// What stands between two numbers.
const SPACE: u8 = b' ';

// The end of a line.
const NEWLINE: u8 = b'\n';

// The words of the lines.
const TOTAL: [u8; 6] = *b"total ";

const REFUSED: [u8; 8] = *b"refused ";

const AT: [u8; 3] = *b"at ";

// Stores the line of a node: its layer, its position there and its place.
fn put_node(text: &mut [u8], start: usize, node: Location, place: u16) -> usize
    requires { Room text.old start (node_line node.layer node.position place) }
    ensures { Puts text.old start (node_line node.layer node.position place) text.new result }
{
    let behind_layer = put_field(text, start, node.layer as u64, SPACE);
    let behind_position = put_field(text, behind_layer, node.position as u64, SPACE);
    put_field(text, behind_position, u64::from(place), NEWLINE)
}

// Stores the lines of all nodes, each of which has a place.
fn put_nodes(numbers: &[u16], places: &[u16], text: &mut [u8], start: usize) -> usize
    requires laid_out { LaidOut numbers.now }
    requires numbers_in_bounds { node_count numbers.now ≤ length places.now }
    requires room { Room text.old start (layers_lines places.now 1 (sheet_of numbers.now).layers) }
    ensures { Puts text.old start (layers_lines places.now 1 (sheet_of numbers.now).layers)
        text.new result }
{
    let mut at = start;
    for (v, place) in places.iter().enumerate() {
        let Some(node) = locate(numbers, v) else {
            return at;
        };
        at = put_node(text, at, node, *place);
    }
    at
}

// Stores the line of the total.
fn put_total(text: &mut [u8], total: u32) -> usize
    requires { Room text.old 0 (total_line total) }
    ensures { Puts text.old 0 (total_line total) text.new result }
{
    let at = put(text, 0, &TOTAL);
    put_field(text, at, u64::from(total), NEWLINE)
}

// Stores the text of a drawing.
pub fn put_drawing(numbers: &[u16], places: &[u16], total: u32, text: &mut [u8]) -> usize
    requires laid_out { LaidOut numbers.now }
    requires numbers_in_bounds { node_count numbers.now ≤ length places.now }
    requires room { Room text.old 0 (drawing_lines (sheet_of numbers.now) places.now total) }
    ensures { Puts text.old 0 (drawing_lines (sheet_of numbers.now) places.now total)
        text.new result }
{
    let at = put_total(text, total);
    put_nodes(numbers, places, text, at)
}

// Stores the text of a refusal.
pub fn put_refusal(refusal: Refusal, text: &mut [u8]) -> usize
    requires { Room text.old 0 (refusal_line refusal) }
    ensures { Puts text.old 0 (refusal_line refusal) text.new result }
{
    let behind_refused = put(text, 0, &REFUSED);
    let behind_number = put_field(text, behind_refused, u64::from(refusal.number), SPACE);
    let behind_at = put(text, behind_number, &AT);
    put_field(text, behind_at, refusal.offset as u64, NEWLINE)
}
