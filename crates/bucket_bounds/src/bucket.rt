//! Buckets.

use dcop_base::{Sequence, TableList};

/// The bucket of a variable.
#[derive(Debug, Drop)]
pub struct Bucket {
    /// The shared tables of its depth: they name the variable and no later one.
    pub tables: TableList,
    /// The bounds of later buckets that come to it: they too name the variable and no later one.
    pub came: TableList,
    /// The bounds that it sends, tables over earlier variables.
    pub sent: TableList,
    /// What it sends besides, at any values: the sum of its bounds without variables and of the
    /// least cells of its bounds that were replaced.
    pub fixed: u64,
    /// The number of groups into which its tables were parted; at most 1 if they were not.
    pub groups: u64,
    /// The number of its bounds that were replaced by their least cell because cells were too few.
    pub replaced: u64,
}

/// Buckets, one for each variable.
pub type BucketList = Sequence<Bucket>;
