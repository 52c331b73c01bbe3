// "The file is three lines ..: class, numerator and denominator .., in columns of 2, 4 and 4, line feed." (2026-01)

// A line, its line feed with it.
pub const LINE_BYTES: usize = 11;

pub const FILE_BYTES: usize = 3 * LINE_BYTES;
