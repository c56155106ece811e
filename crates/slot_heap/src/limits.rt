// The limit of a slot heap.

/// How many slots a slot heap has.
pub const SLOTS: usize = 128;
