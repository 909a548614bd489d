// The limit of what the method stores.

// The most nodes times KINK_ZERO: no value of a least solution passes it.
pub const VALUE_LIMIT: usize = 268435456;
