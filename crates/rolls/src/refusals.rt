// The refusal that only a list of widths gives: there are more than a list may have.
pub const MANY_WIDTHS: u8 = 11;
