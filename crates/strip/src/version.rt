// The version of the library. A change of an answer, a format or a call raises MINOR, every other change of the library PATCH.

pub const MAJOR: u32 = 0;

pub const MINOR: u32 = 7;

pub const PATCH: u32 = 0;
