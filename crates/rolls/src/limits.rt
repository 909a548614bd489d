// The limits of a list of widths, and the entry of a width without a drawing.
use sheet::limits::MAX_WIDTH;

// The widths that a list may have.
pub const MAX_WIDTHS: usize = 64;

// The entry of a width without a drawing: a number, since C reads the totals.
pub const NO_TOTAL: u32 = 4294967295;

// One more than every width: a number, since the test that ends the loop over the widths covers it.
pub const PAST_WIDTH: u32 = MAX_WIDTH + 1;
