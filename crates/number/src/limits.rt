// The sizes of numbers and of their groups.

/// How many values a group of seven bits has.
pub const GROUP_VALUES: u32 = 128;

/// What is added to every byte of a number but the last.
pub const MORE: u8 = 128;

/// How many groups a number has at most.
pub const MAX_GROUPS: usize = 5;

/// What the last of so many groups is below: four of 32 bits are left for it.
pub const TOP_GROUP_VALUES: u8 = 16;
