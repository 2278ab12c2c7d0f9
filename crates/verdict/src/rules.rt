ghost use Rattle.std.specs.Prelude.{◌≡◌};
ghost use Rattle.verdict.specs.Rules.{number};

/// What is asked of a document, in the order in which it is told what fails.
#[derive(Clone, Copy, Debug, PartialEq, Eq)]
pub enum Rule {
    /// The bytes are a document.
    Grammar,
    /// The ends are ports, and their stated labels are there.
    Ends,
    /// Each hop takes the unit that the hops before it left.
    Carried,
    /// What is found is a walk.
    Arrives,
    /// The stated weight is that of the hops, and the limit is kept.
    Weighed,
    /// The flags are those of the hops.
    Flagged,
    /// The domain and rule lines are those of the hops.
    Ruled,
    /// Listed places and roots name their classes, are open, and have kept labels or none.
    Placed,
    /// Start places and roots are listed with weight zero.
    Starts,
    /// A hop that keeps the stack leads on, with at most the sum.
    Extends,
    /// An adaptation leads to a listed root.
    Opens,
    /// An adaptation, what is listed under the root that it enters, and the deadaptation lead on, with at most the sum.
    Nests,
    /// The outcome is the least weight listed at an allowed place of TO.
    Agrees,
}

impl Rule {
    /// The number of the rule, from 1 to 13.
    pub fn number(self) -> u32
        ensures { result ≡ number self }
    {
        match self {
            Rule::Grammar => 1,
            Rule::Ends => 2,
            Rule::Carried => 3,
            Rule::Arrives => 4,
            Rule::Weighed => 5,
            Rule::Flagged => 6,
            Rule::Ruled => 7,
            Rule::Placed => 8,
            Rule::Starts => 9,
            Rule::Extends => 10,
            Rule::Opens => 11,
            Rule::Nests => 12,
            Rule::Agrees => 13,
        }
    }
}
