use circuit_spec::{HopList, Request};
use ml_base::{Items, KEnd, Weight};

/// A walk, by its hops, and its weight.
#[derive(Debug, Drop)]
pub struct KHops {
    pub weight: Weight,
    pub hops: HopList,
}

/// Walks, in order of weight.
pub type KHopsList = Items<KHops>;

/// The cheapest walks of a request, and why there are no more of them.
#[derive(Debug, Drop)]
pub struct KAnswer {
    pub request: Request,
    pub walks: KHopsList,
    pub end: KEnd,
}
