//! Laws of bounds. Each is the contract of a call that does nothing; a proof that needs it calls
//! it.

ghost use Rattle.bucket_bounds.specs.Laws.{BoundsAreAtMostTheRest, MiniBucketsAreAtMostTheRest, UnpartedMiniBucketsAreExact, FirstBoundIsAtMostTheOptimum, MiniBucketsAreAtMostTheOptimum};

/// If each bucket sends at most what its tables and the bounds that come to it cost, the bounds of
/// each depth sum to at most the rest: the least that the tables of that depth and more cost. It
/// does not matter into which groups a bucket parts its tables.
pub fn bounds_are_at_most_the_rest()
    ensures { BoundsAreAtMostTheRest }
{}

/// The bounds of mini-buckets sum at each depth to at most the rest. This holds whatever the groups
/// are into which the buckets part their tables, however costs are shared among the joined tables,
/// and whatever bounds are replaced because cells are too few (Dechter and Rish, Mini-buckets: a
/// general scheme for bounded inference, Journal of the ACM 50, 2003).
pub fn mini_buckets_are_at_most_the_rest()
    ensures { MiniBucketsAreAtMostTheRest }
{}

/// If no bucket is parted into several groups, and no bound is replaced by its least cell, the
/// bounds of each depth sum to exactly the rest.
pub fn unparted_mini_buckets_are_exact()
    ensures { UnpartedMiniBucketsAreExact }
{}

/// The bound of depth 0 is at most the scaled optimum of the problem.
pub fn first_bound_is_at_most_the_optimum()
    ensures { FirstBoundIsAtMostTheOptimum }
{}

/// The bound of depth 0 of any mini-buckets of a problem's shared costs is at most the problem's
/// scaled optimum.
pub fn mini_buckets_are_at_most_the_optimum()
    ensures { MiniBucketsAreAtMostTheOptimum }
{}
