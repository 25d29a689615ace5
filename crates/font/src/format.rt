// The numbers of the font table's format.

pub const WORD_BYTES: usize = 4;

// PA records, one for each size: mark and words.
pub const SIZE_COUNT: usize = 3;

pub const PARAMETER_COUNT: usize = 35;

pub const FIRST_PARAMETER: usize = 2;

pub const PARAMETER_BYTES: usize = FIRST_PARAMETER + WORD_BYTES * PARAMETER_COUNT;

pub const HEADER_BYTES: usize = SIZE_COUNT * PARAMETER_BYTES;

// CH records: where each part of one stands.
pub const CHARACTER_BYTES: usize = 23;

pub const SIZE: usize = 2;

pub const FAMILY: usize = 3;

pub const CODE: usize = 4;

pub const FLAG: usize = 5;

pub const SUCCESSOR: usize = 6;

pub const WIDTH: usize = 7;

pub(crate) const HEIGHT: usize = 11;

pub(crate) const DEPTH: usize = 15;

pub(crate) const ITALIC: usize = 19;

pub const METRIC_COUNT: usize = 4;

// The greatest of each.
pub const GREATEST_SIZE: u8 = 2;

pub const GREATEST_FAMILY: u8 = 15;
