//! Lower bounds on what completing an assignment costs, by mini-buckets (Dechter and Rish,
//! Mini-buckets: a general scheme for bounded inference, Journal of the ACM 50, 2003).
//!
//! Variables are eliminated from the last one to the first. The bucket of a variable takes the
//! tables of its depth and the bounds that come to it, and parts them into groups that are not too
//! wide. It joins each group, shares the variable among the joined tables, and sends the projection
//! of each by the variable. At each depth, sum what the buckets from there on send and no bucket
//! there takes: this is at most what the tables of that depth and more cost.
#![tactic(auto)]

mod bounds;
mod bucket;
mod by_cells;
mod group;
mod joining;
mod keeping;
mod law;
mod limit;
mod making;
mod projecting;
mod sharing;
mod union;

pub use bounds::bounds_of;
pub use bucket::{Bucket, BucketList};
pub use law::{
    bounds_are_at_most_the_rest, first_bound_is_at_most_the_optimum,
    mini_buckets_are_at_most_the_optimum, mini_buckets_are_at_most_the_rest,
    unparted_mini_buckets_are_exact,
};
pub use limit::limit_within;
