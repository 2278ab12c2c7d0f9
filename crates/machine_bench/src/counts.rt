use ml_base::Weight;
use segment_grammar::Pot;

/// Sums over the reached pairs. Those of costs and hops go round at 2^64.
#[derive(Clone, Copy, Debug)]
pub struct Counts {
    pub past: u64,
    pub costs: u64,
    pub hops: u64,
}

impl Counts {
    fn with(self, weight: Weight) -> Counts {
        match weight {
            Weight::Known { cost, hops } => Counts {
                costs: self.costs.wrapping_add(cost),
                hops: self.hops.wrapping_add(hops),
                past: self.past,
            },
            Weight::Past => Counts {
                past: self.past.wrapping_add(1),
                ..self
            },
        }
    }

    pub fn of(pots: &[Pot]) -> Counts {
        let mut counts = Counts {
            past: 0,
            costs: 0,
            hops: 0,
        };
        for pot in pots {
            counts = counts.with(pot.weight);
        }
        counts
    }
}
