use ml_base::{Items, KEnd, StepNo, Weight};

/// The steps of a walk, in order.
pub type KSteps = Items<StepNo>;

/// Walks, in order of weight.
pub type KWalkList = Items<KWalk>;

/// A walk and its weight.
#[derive(Debug, Drop)]
pub struct KWalk {
    pub weight: Weight,
    pub steps: KSteps,
}

/// The cheapest walks, and why there are no more of them.
#[derive(Debug, Drop)]
pub struct KFound {
    pub walks: KWalkList,
    pub end: KEnd,
}
