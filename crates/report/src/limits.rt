// The lengths of texts.
use sheet::limits::MAX_NODES;

// The decimal digits of a number of 64 bits.
pub const MAX_DIGITS: usize = 20;

// The line of a total of 32 bits: the word, ten digits and the end of the line.
pub const MAX_TOTAL_LINE: usize = 17;

// The line of a node: layer and position of two digits, a place of five, and a byte behind each.
pub const MAX_NODE_LINE: usize = 12;

// The text of a drawing. That of a refusal is shorter.
pub const MAX_TEXT: usize = MAX_TOTAL_LINE + MAX_NODE_LINE * MAX_NODES as usize;
