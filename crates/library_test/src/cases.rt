// The cases: the form of a line, and the operations.
use crate::draw::draw_case;
use crate::narrowest::narrowest_case;
use crate::widths::widths_case;
use crate::{hex, show};
use leb128::Refusal;
use sheet::limits::{MAX_BYTES, MAX_NUMBERS};

// The column where the payload starts.
const PAYLOAD: usize = 12;

// The bytes that a payload may have.
pub const PAYLOAD_BYTES: usize = 5130;

// The numbers that a payload may have.
const PAYLOAD_NUMBERS: usize = 2570;

// The greatest room for numbers: one more than a sheet has.
const NUMBER_ROOM: usize = MAX_NUMBERS + 1;

// The greatest room for bytes: one more than a sheet has.
const BYTE_ROOM: usize = MAX_BYTES + 1;

// The places that a case of the checker or of the engine may have.
pub const PLACES: usize = 300;

// The numbers of a list that a case of the checker or of the engine may have.
pub const LIST: usize = 1100;

// Whether a byte may stand in a column behind the first: a space between two parts, else a digit.
fn fits_column(column: usize, byte: u8) -> bool {
    match column {
        1 | 6 | 11 => byte == b' ',
        _ => hex::is_digit(byte),
    }
}

// Whether each byte of a line behind the first fits its column.
fn fits_columns(line: &[u8]) -> bool {
    line.iter()
        .enumerate()
        .skip(1)
        .all(|(column, byte)| fits_column(column, *byte))
}

// Hands the bytes that a payload writes to an operation. Answers whether it is whole bytes.
pub fn with_bytes<F: FnOnce(&[u8])>(payload: &[u8], operation: F) -> bool
    requires { (bytes : _) → F.pre operation bytes }
{
    if payload.len() % 2 != 0 {
        return false;
    }
    let mut bytes = [0u8; PAYLOAD_BYTES];
    let n = hex::list(payload, &mut bytes);
    operation(&bytes[..n]);
    true
}

// `R`, `F`: the payload is the bytes of a sheet or of a coordinate file to read into so much room. Prints the answer and the numbers.
fn read_case<F: FnOnce(&[u8], &mut [u16]) -> Result<usize, Refusal>>(
    read: F,
    room: usize,
    payload: &[u8],
) -> bool
    requires { (bytes : _) (numbers : _) → F.pre read bytes numbers }
{
    with_bytes(payload, |bytes| {
        let mut numbers = [0xa5a5u16; NUMBER_ROOM];
        let lent = &mut numbers[..room.min(NUMBER_ROOM)];
        show::answer(read(bytes, lent));
        show::list(lent);
    })
}

// `W`, `S`: the payload is the numbers of a sheet or of a coordinate file to write into so much room. Prints the answer and the bytes.
// Answers whether it is whole numbers.
fn write_case<F: FnOnce(&[u16], &mut [u8]) -> Result<usize, Refusal>>(
    write: F,
    room: usize,
    payload: &[u8],
) -> bool
    requires { (numbers : _) (bytes : _) → F.pre write numbers bytes }
{
    if payload.len() % 4 != 0 {
        return false;
    }
    let mut numbers = [0u16; PAYLOAD_NUMBERS];
    let n = hex::list(payload, &mut numbers);
    let mut bytes = [0xa5u8; BYTE_ROOM];
    let lent = &mut bytes[..room.min(BYTE_ROOM)];
    show::answer(write(&numbers[..n], lent));
    show::list(lent);
    true
}

// `G`: the payload is bytes with a number to read at a position. Answers whether it is whole bytes.
fn get_case(at: usize, payload: &[u8]) -> bool {
    with_bytes(payload, |bytes| show::found(leb128::read_number(bytes, at)))
}

// `P`: the payload is the number to write at a position of so much room. Prints the answer and the bytes. Answers whether it is one
// number.
fn put_case(room: usize, at: usize, payload: &[u8]) -> bool {
    if payload.len() != 8 {
        return false;
    }
    let mut bytes = [0xa5u8; BYTE_ROOM];
    let lent = &mut bytes[..room.min(BYTE_ROOM)];
    show::placed(leb128::write_number(lent, at, hex::number(payload)));
    show::list(lent);
    true
}

// `C`: the payload is so many places, so many numbers of a list, and the bytes of their sheet. Answers whether it is that.
fn check_case(count: usize, length: usize, payload: &[u8]) -> bool {
    let list_at = 4 * count.min(PLACES);
    let sheet_at = list_at + 8 * length.min(LIST);
    if payload.len() < sheet_at {
        return false;
    }
    let mut places = [0u16; PLACES];
    let n = hex::list(&payload[..list_at], &mut places);
    let mut list = [0i32; LIST];
    let m = hex::list(&payload[list_at..sheet_at], &mut list);
    with_bytes(
        &payload[sheet_at..],
        |bytes| show::verdict(checker::check(bytes, &places[..n], &list[..m])),
    )
}

// Runs a case by its letter. Answers whether there is such an operation, with a payload of its form.
fn operation(letter: u8, room: usize, at: usize, payload: &[u8]) -> bool {
    match letter {
        b'R' => read_case(sheet::read, room, payload),
        b'W' => write_case(sheet::write, room, payload),
        b'F' => read_case(sheet::read_coordinates, room, payload),
        b'S' => write_case(sheet::write_coordinates, room, payload),
        b'G' => get_case(at, payload),
        b'P' => put_case(room, at, payload),
        b'C' => check_case(room, at, payload),
        b'D' => draw_case(room, at, payload),
        b'N' => narrowest_case(payload),
        b'T' => widths_case(room, at, payload),
        _ => false,
    }
}

// Runs the case of a line: its letter, two numbers (room and position, or two counts) and payload. Answers whether the
// line is of this form.
pub fn case(line: &[u8]) -> bool {
    if line.len() < PAYLOAD {
        return false;
    }
    if !fits_columns(line) {
        return false;
    }
    let room = hex::number(&line[2..6]) as usize;
    let at = hex::number(&line[7..11]) as usize;
    operation(line[0], room, at, &line[PAYLOAD..])
}
