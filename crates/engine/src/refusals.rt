// The numbers of the refusals of a good sheet.

// No drawing exists.
pub const NO_DRAWING: u8 = 8;

// No width within the limit has a drawing.
pub const NO_WIDTH: u8 = 10;
