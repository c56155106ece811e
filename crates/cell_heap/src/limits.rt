// The limit of a cell heap.

/// How many cells a cell heap has.
pub const CELLS: usize = 1024;
