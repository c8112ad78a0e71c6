//! The limits of values, of a map's size and of jobs. The limits of weights of items, of ids and of
//! other numbers in a map are Ceph's own, and so is [`MOST_RULES`]. The other limits are this
//! editor's own. They are far above what clusters have, and low enough that counts and sums fit
//! their types.

/// The number of units in a weight of 1.0: 2^16, because Ceph's weights have 16 bits after the
/// point.
pub const UNITS_OF_ONE: u32 = 65536;

/// The greatest weight of a device: 2^31 - 1 units, which is just below 32768.0.
pub const HEAVIEST_DEVICE: u32 = 2147483647;

/// The greatest weight of a bucket: 2^32 - 1 units, because Ceph keeps a weight in 32 bits.
pub const HEAVIEST_BUCKET: u32 = 4294967295;

/// The greatest weight of a map: 2^43 - 1 units. The weight of a map is the sum of the weights of
/// all devices that are in buckets.
pub const HEAVIEST_MAP: u64 = 8796093022207;

/// The greatest id of a device: 2^31 - 1, because CRUSH's ids are signed 32-bit numbers.
pub const LAST_DEVICE_ID: u32 = 2147483647;

/// The number of possible device ids, which begin at 0: 2^31.
pub const DEVICE_IDS: u32 = 2147483648;

/// How far the least id of a bucket is below 0: 2^31, because CRUSH's ids are signed 32-bit
/// numbers.
pub const FARTHEST_BUCKET_ID: u32 = 2147483648;

/// The greatest number of a type: 2^16 - 1, because CRUSH keeps this number in 16 bits.
pub const LAST_TYPE: u32 = 65535;

/// The greatest length of a name in bytes. In Linux, the name of a file has the same limit, and the
/// name of a host has at most 64 bytes.
pub const LONGEST_NAME: usize = 255;

/// The greatest length in bytes of a name for which no memory is allocated.
pub const LONGEST_SHORT_NAME: usize = 30;

/// The greatest number of devices in a map. The largest clusters have about ten thousand devices.
pub const MOST_DEVICES: u32 = 65536;

/// The greatest number of buckets in a map: one for every sixteen devices that a map may have. Even
/// if all these buckets are nested, each inside the next, a recursive function that goes down
/// through all of them has enough stack.
pub const MOST_BUCKETS: u32 = 4096;

/// The greatest number of class ids of one bucket. For each device class, Ceph keeps a copy of a
/// bucket that has only the devices of this class. A class id is the id of such a copy. Clusters
/// have three or four classes.
pub const MOST_CLASS_IDS: usize = 16;

/// The greatest number of free bucket ids that one call can request: 2^16, which is the number of
/// possible types. A location needs at most one new bucket for each type.
pub const MOST_FREE_IDS: usize = 65536;

/// The greatest number of types in a map, including type 0. Ceph's own maps have twelve types.
pub const MOST_TYPES: usize = 256;

/// The greatest number of tunables (numeric settings) in a map. Ceph 18 has eight tunables.
pub const MOST_TUNABLES: usize = 64;

/// The greatest number of rules in a map, which is also CRUSH's limit (`CRUSH_MAX_RULES`).
pub const MOST_RULES: usize = 256;

/// The greatest number of steps in one rule. Ceph's own rules have three to seven steps.
pub const MOST_STEPS: usize = 64;

/// The greatest value of a tunable: 2^32 - 1, because Ceph keeps this value in 32 bits.
pub const LARGEST_TUNABLE: u32 = 4294967295;

/// The greatest id of a rule, the greatest pool size that a rule gives, and the greatest value that
/// a step such as `set_chooseleaf_tries` sets: 2^31 - 1. In Ceph, these numbers are signed.
pub const LARGEST_RULE_NUMBER: u32 = 2147483647;

/// The greatest count of items in a step of a rule that chooses items: 2^31 - 1.
pub const LARGEST_COUNT: u32 = 2147483647;

/// How far the least count of items in a step of a rule that chooses items is below 0: 2^31.
pub const FARTHEST_COUNT: u32 = 2147483648;

/// The greatest number of `TYPE=NAME` pairs in one location. Ceph's own maps have twelve types.
pub const MOST_PAIRS: usize = 16;

/// The greatest number of edits in one batch: one for each device that a map can have.
pub const MOST_EDITS: usize = 65536;

/// The greatest number of operators that edit one map. Operators that edit the map at the same time
/// each have a thread of their own.
pub const MOST_OPERATORS: usize = 16;

/// The greatest number of calls in one job. A call is an edit or a batch of edits, and gets one
/// entry in the history.
pub const MOST_CALLS: usize = 65536;

/// The greatest number of entries in a history, which is a list of calls with their replies. The
/// number is limited because one 64-bit word contains both the number of calls that have changed
/// the map, and the map's weight.
pub const MOST_ENTRIES: usize = 65536;

/// The greatest length of a job in bytes: 16 MiB. The text of a map of 60,000 devices takes about
/// 3 MiB.
pub const LONGEST_JOB: usize = 16777216;
