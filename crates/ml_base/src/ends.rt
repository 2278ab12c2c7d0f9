/// Why a list of the cheapest walks has no more of them.
#[derive(Clone, Copy, Debug, PartialEq, Eq)]
pub enum KEnd {
    /// As many are listed as were asked for.
    Enough,
    /// There are no others.
    NoMore,
    /// Each other costs 2^64 or more.
    Past,
    /// The lightest of the others has this weight, and more hops than the limit.
    Long { cost: u64, hops: u64 },
}
