use circuit_spec::{HopList, Outcome, PlaceName, Request};
use device_rules::RuleList;
use ml_base::{Items, Weight};

/// Where the segments of a potential begin.
#[derive(Debug, Drop)]
pub enum RootName {
    Request,
    Entry(PlaceName),
}

/// The least weight of the segments from a root to a place.
#[derive(Debug, Drop)]
pub struct PotLine {
    pub root: RootName,
    pub place: PlaceName,
    pub weight: Weight,
}

/// For each hop the first earlier place that it comes back to.
pub type FlagList = Items<Option<u64>>;

/// A list of potentials.
pub type PotList = Items<PotLine>;

/// What a search answers.
#[derive(Debug, Drop)]
pub struct Answer {
    pub request: Request,
    pub outcome: Outcome,
    pub hops: HopList,
    pub flags: FlagList,
    pub rules: RuleList,
    pub potentials: PotList,
}
