//! The limits of the two numbers in the word of a [`Gauge`](crate::Gauge). A gauge is one 64-bit
//! word of memory, shared by threads.

/// The number that one change adds to the word of a gauge: 2^43. Each weight is below this number.
/// So the word divided by this number gives the number of changes, and the remainder is the weight.
pub const CHANGE: u64 = 8796093022208;

/// The greatest number of changes in the word of a gauge. A history of `crush_editor` has at most
/// so many entries. Because the weight is below 2^43, the word is below 2^60.
pub const MOST_CHANGES: u64 = 65536;
