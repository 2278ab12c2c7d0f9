ghost use Rattle.std.specs.Prelude.{◌≡◌, ◌<◌, [], IfOk, None, length, replicate, map};
ghost use Rattle.ml_base.specs.declared.numbers.Root.{Root};
ghost use Rattle.ml_base.specs.declared.numbers.Root.TheVariants.{Request, Entry};
ghost use Rattle.ml_base.specs.declared.numbers.StateNo.{StateNo};
ghost use Rattle.knuth_search.specs.Offered.{offered_at, Puts};

use adapt_machine::Machine;
use ml_base::{NoMemory, Root, StateNo, Weight};
use root_order::Plan;
use segment_grammar::Pot;
use std::alloc::Global;
use std::collections::HashMap;
use std::marker::Model;

/// The least weight at which each pair of a root and a state was ever offered. The request reaches most states of a large machine
/// and an entered state few, so there is a list by state for the request, and for each lane of entered states a map by the two.
#[derive(Drop)]
pub struct Offered {
    plan: Plan,
    request: Vec<Option<Weight>>,
    maps: Vec<HashMap<(u64, u64), Weight>>,
}

impl Model for Offered {
    ghost use Rattle.std.specs.Prelude.{◌≡◌, length, map};
    ghost use Rattle.knuth_search.specs.Offered.{OfferedValue};

    ghost Value = { OfferedValue };

    ghost view = { λ o. record { plan = o.plan; request = o.request.items; maps = map (λ m. m.entries) o.maps.items } };

    ghost invariant = { λ o. length o.maps.items ≡ o.plan.lanes };
}

/// A place for each state, with nothing in it.
fn empty_places(alloc: Global, states: u64) -> Result<Vec<Option<Weight>>, NoMemory>
    ensures { IfOk result (λ v. v.items ≡ replicate states None) }
{
    match vec![in alloc; None; states as usize] {
        Ok(places) => Ok(places),
        Err(_) => Err(NoMemory),
    }
}

/// This many empty maps.
fn empty_maps(alloc: Global, count: u64) -> Result<Vec<HashMap<(u64, u64), Weight>>, NoMemory>
    ensures { IfOk result (λ v. map (λ m. m.entries) v.items ≡ replicate count []) }
{
    let mut maps = Vec::new(alloc);
    for _ in 0..count {
        if maps.push(HashMap::new(alloc)).is_err() {
            return Err(NoMemory);
        }
    }
    Ok(maps)
}

impl Offered {
    /// Nothing was offered.
    pub fn new(alloc: Global, machine: &Machine, plan: Plan) -> Result<Offered, NoMemory>
        ensures plan { IfOk result (λ o. o.plan ≡ plan) }
        ensures states { IfOk result (λ o. length o.request ≡ machine.now.states) }
        ensures none { IfOk result (λ o. (root : Root) (state : StateNo) → offered_at o root state ≡ None) }
    {
        let request = empty_places(alloc, machine.states())?;
        let maps = empty_maps(alloc, plan.lanes())?;
        Ok(Offered {
            plan,
            request,
            maps,
        })
    }

    /// The lane of a root.
    pub fn lane(&self, root: Root) -> u64
        ensures { result < self.now.plan.lanes }
    {
        self.plan.lane(root)
    }

    /// The least weight at which the state was offered under the request.
    fn under_request(&self, state: StateNo) -> Option<Weight>
        ensures { result ≡ offered_at self.now Request state }
    {
        self.request.get(state.0 as usize).copied().unwrap_or(None)
    }

    /// The least weight at which the state was offered under the entered one.
    fn under_entry(&self, entry: StateNo, state: StateNo) -> Option<Weight>
        ensures { result ≡ offered_at self.now (Entry entry) state }
    {
        let lane = self.plan.lane(Root::Entry(entry));
        self.maps[lane as usize].get(&(entry.0, state.0)).copied()
    }

    /// The least weight at which the pair was offered.
    pub fn least(&self, pot: Pot) -> Option<Weight>
        ensures { result ≡ offered_at self.now pot.root pot.state }
    {
        match pot.root {
            Root::Request => self.under_request(pot.state),
            Root::Entry(entry) => self.under_entry(entry, pot.state),
        }
    }

    /// Puts down that the pair was offered at its weight, the least from then on.
    pub fn put(&mut self, pot: Pot) -> Result<(), NoMemory>
        requires { pot.state.0 < length self.old.request }
        ensures plan { self.new.plan ≡ self.old.plan }
        ensures states { length self.new.request ≡ length self.old.request }
        ensures puts { IfOk result (λ _. Puts self.old pot self.new) }
    {
        let Root::Entry(entry) = pot.root else {
            self.request[pot.state.0 as usize] = Some(pot.weight);
            return Ok(());
        };
        let lane = self.plan.lane(pot.root);
        let weights = &mut self.maps[lane as usize];
        let Ok(_) = weights.insert((entry.0, pot.state.0), pot.weight) else {
            return Err(NoMemory);
        };
        Ok(())
    }
}
