//! First visits: whether a state was visited before, and at which number first.
#![tactic(auto)]

ghost use Rattle.std.specs.Prelude.{◌≡◌, ◌<◌, ℕ, List, Option, None, IfOk, length, replicate, slice_index_or};
ghost use Rattle.repeat_flags.specs.Visits.{Visit, after, first_at, noted};

use ml_base::{NoMemory, StateNo};
use std::alloc::Global;
use std::marker::Model;

/// The number of the first visit of each state, in an array by state. Contracts see the list of these numbers.
#[derive(Debug, Drop)]
pub struct Flags {
    first: Vec<Option<u64>>,
}

impl Model for Flags {
    ghost use Rattle.std.specs.Prelude.{ℕ, List, Option};

    ghost Value = { List (Option ℕ) };

    ghost view = { λ flags. flags.first.items };
}

impl Flags {
    /// No state of these many is visited.
    pub fn new(alloc: Global, states: u64) -> Result<Flags, NoMemory>
        ensures { IfOk result (λ flags. flags ≡ replicate states None) }
    {
        let mut first = Vec::new(alloc);
        first.resize(states as usize, None)?;
        Ok(Flags { first })
    }

    /// Visits a state at a number, and answers the number of its first visit, or None exactly where this is the first. Takes constant
    /// time and no memory. By `answers_are_first_visits` the answers over any visits are those of the definition.
    pub fn visit(&mut self, state: StateNo, at: u64) -> Option<u64>
        requires { state.0 < length self.old }
        ensures answer { result ≡ slice_index_or self.old state.0 None }
        ensures noted { self.new ≡ noted self.old state.0 at }
    {
        let Some(first) = self.first[state.0 as usize] else {
            self.first[state.0 as usize] = Some(at);
            return None;
        };
        Some(first)
    }
}

/// Behind any visits the number of a state is that of the first of them that is of this state.
pub fn answers_are_first_visits()
    ensures { (states : ℕ) (visits : List Visit) (state : ℕ) → state < states → slice_index_or (after (replicate states None) visits) state None ≡ first_at visits state }
{}

#[cfg(test)]
mod tests {
    use super::*;
    use std::test::Fail;

    #[test]
    fn first_visits(rt: HostRuntime) -> Result<(), Fail> {
        let mut flags = Flags::new(rt.alloc(), 3)?;
        for (state, at, want) in [(1, 0, None), (2, 1, None), (1, 2, Some(0)), (1, 3, Some(0))] {
            assert_eq!(rt; visited(&mut flags, state, at), want);
        }
        Ok(())
    }

    fn visited(flags: &mut Flags, state: u64, at: u64) -> Option<u64> {
        if state < flags.first.len() as u64 {
            return flags.visit(StateNo(state), at);
        }
        None
    }
}
