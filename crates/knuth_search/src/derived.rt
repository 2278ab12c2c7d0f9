ghost use Rattle.std.specs.Prelude.{◌≡◌};
ghost use Rattle.segment_grammar.specs.Pots.{pot};

use deriv_arena::Deriv;
use ml_base::{Root, StateNo, Weight};
use segment_grammar::Pot;

/// A pair of a root and a state with a weight and a derivation of it.
#[derive(Clone, Copy)]
pub struct Derived<'a> {
    pub weight: Weight,
    pub root: Root,
    pub state: StateNo,
    pub deriv: &'a Deriv<'a>,
}

impl<'a> Derived<'a> {
    /// The pair with its weight.
    pub fn pot(&self) -> Pot
        ensures { result ≡ pot self.now.root self.now.state self.now.weight }
    {
        Pot {
            root: self.root,
            state: self.state,
            weight: self.weight,
        }
    }
}
