// The limits of heaps, each in one place.

/// The most values that a row has.
pub const ROW_LIMIT: usize = 8;
