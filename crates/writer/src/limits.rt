// How long a file can be.

/// No set's file is longer; specs/Longest.antt has the same for the promises.
pub const LONGEST_FILE: usize = 9653;
