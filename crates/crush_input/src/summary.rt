//! The numbers that a run reports.

/// What a run has done.
#[derive(Clone, Copy, Debug, PartialEq, Eq)]
pub struct Summary {
    /// The number of bucket weights in the map's text that weren't the sum of the weights of the
    /// devices below the bucket, and were replaced by this sum.
    pub adjusted: u32,
    /// The number of calls that got a reply.
    pub calls: u32,
    /// The number of calls that changed the map.
    pub changes: u32,
    /// Whether the status is 6 instead of 0. This is true only with `--exit-code`, and only if
    /// there is something to report. With `--since`, there is something to report if something has
    /// changed since the old map. If `--under` is also given, only the changes of its item, and of
    /// the items that are or were below it, count. With `--to`, there is something to report if the
    /// plan has an edit, or if differences remain after the plan. With any other output, there is
    /// something to report if a call has changed the map.
    pub differs: bool,
}
