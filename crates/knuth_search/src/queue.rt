ghost use Rattle.std.specs.Prelude.{◌≡◌, ◌∷◌, [], IsTrue, false, IfOk, IfSome, IfNone, None, replicate};
ghost use Rattle.std.specs.List.{Contains};
ghost use Rattle.ml_base.specs.declared.numbers.Root.{Root};
ghost use Rattle.ml_base.specs.declared.numbers.StateNo.{StateNo};
ghost use Rattle.segment_grammar.specs.declared.potentials.Pot.{Pot};
ghost use Rattle.knuth_search.specs.Following.{IsOffered, IsNoHeavier, IsBeaten, Offers};
ghost use Rattle.knuth_search.specs.Offered.{offered_at};
ghost use Rattle.knuth_search.specs.Tables.{pot_of, IsKept};
ghost use Rattle.knuth_search.specs.Lanes.{pots_in, IsWaitingIn};

use crate::derived::Derived;
use crate::lane::Lane;
use crate::offered::Offered;
use adapt_machine::Machine;
use ml_base::{NoMemory, StateNo};
use root_order::Plan;
use segment_grammar::Pot;
use std::alloc::Global;
use std::cmp::Reverse;
use std::collections::BinaryHeap;
use std::marker::Model;

/// Candidates in lanes, and the least weight at which each pair was ever offered. The first lane in which some wait is emptied first, so
/// that the search stays with few roots at a time and finds their data in the cache. Contracts see the candidates' pairs and weights in
/// some order, and not the order in which they leave.
#[derive(Drop)]
pub struct Queue<'m, 'a> {
    machine: &'m Machine,
    starts: &'m [StateNo],
    offered: Offered,
    lanes: Vec<Lane<'a>>,
    /// The numbers of the lanes in which candidates wait, and maybe of others. Only the order of the search rests on it.
    active: BinaryHeap<Reverse<u64>>,
}

impl<'m, 'a> Model for Queue<'m, 'a> {
    ghost use Rattle.knuth_search.specs.Tables.{Queued};
    ghost use Rattle.knuth_search.specs.Lanes.{pots_in, AreLanes};

    ghost Value = { Queued };

    ghost view = { λ q. record { task = record { machine = q.machine.now; starts = q.starts.now }; waiting = pots_in q.lanes.items; offered = q.offered } };

    ghost invariant = { λ q. AreLanes (record { machine = q.machine.now; starts = q.starts.now }) q.offered q.lanes.items };
}

/// This many empty lanes.
fn empty_lanes<'a>(alloc: Global, count: u64) -> Result<Vec<Lane<'a>>, NoMemory>
    ensures { IfOk result (λ v. v.items ≡ replicate count []) }
{
    let mut lanes = Vec::new(alloc);
    for _ in 0..count {
        if lanes.push(Lane::new(alloc)).is_err() {
            return Err(NoMemory);
        }
    }
    Ok(lanes)
}

/// Whether candidates wait in the lane of this number.
fn waits_in(lanes: &[Lane], number: u64) -> bool
    ensures { IsTrue result → IsWaitingIn lanes.now number }
{
    let Some(lane) = lanes.get(number as usize) else {
        return false;
    };
    !lane.is_empty()
}

/// The first of the active lanes in which candidates wait. Those before it are active no more.
fn first_active(active: &mut BinaryHeap<Reverse<u64>>, lanes: &[Lane]) -> Option<u64>
    ensures { IfSome result (λ n. IsWaitingIn lanes.now n) }
{
    for _ in 0..active.len() {
        let Some(Reverse(number)) = active.peek() else {
            return None;
        };
        let number = *number;
        if waits_in(lanes, number) {
            return Some(number);
        }
        active.pop();
    }
    None
}

/// The first of all lanes in which candidates wait.
fn first_waiting(lanes: &[Lane]) -> Option<u64>
    ensures some { IfSome result (λ n. IsWaitingIn lanes.now n) }
    ensures none { IfNone result (pots_in lanes.now ≡ []) }
{
    for number in 0..lanes.len() {
        if !lanes[number].is_empty() {
            return Some(number as u64);
        }
    }
    None
}

/// The lane that is to be emptied next.
fn next_lane(active: &mut BinaryHeap<Reverse<u64>>, lanes: &[Lane]) -> Option<u64>
    ensures some { IfSome result (λ n. IsWaitingIn lanes.now n) }
    ensures none { IfNone result (pots_in lanes.now ≡ []) }
{
    match first_active(active, lanes) {
        Some(number) => Some(number),
        None => first_waiting(lanes),
    }
}

/// Whether the lane is the first of the active ones.
fn is_first(active: &BinaryHeap<Reverse<u64>>, number: u64) -> bool {
    match active.peek() {
        Some(Reverse(first)) => *first == number,
        None => false,
    }
}

/// Makes a lane active into which its first candidate goes.
fn activate(
    active: &mut BinaryHeap<Reverse<u64>>,
    lane: &Lane,
    number: u64,
) -> Result<(), NoMemory> {
    if !lane.is_empty() || is_first(active, number) {
        return Ok(());
    }
    match active.push(Reverse(number)) {
        Ok(()) => Ok(()),
        Err(_) => Err(NoMemory),
    }
}

impl<'m, 'a> Queue<'m, 'a> {
    pub fn new(
        alloc: Global,
        machine: &'m Machine,
        starts: &'m [StateNo],
        plan: Plan,
    ) -> Result<Queue<'m, 'a>, NoMemory>
        ensures waiting { IfOk result (λ q. q.waiting ≡ []) }
        ensures offered { IfOk result (λ q. (root : Root) (state : StateNo) → offered_at q.offered root state ≡ None) }
        ensures task { IfOk result (λ q. q.task ≡ record { machine = machine.now; starts = starts.now }) }
    {
        let lanes = empty_lanes(alloc, plan.lanes())?;
        let offered = Offered::new(alloc, machine, plan)?;
        Ok(Queue {
            machine,
            starts,
            offered,
            lanes,
            active: BinaryHeap::new(alloc),
        })
    }

    /// Whether the pair was offered at no more than this weight.
    pub fn covers(&self, pot: Pot) -> bool
        ensures yes { IsTrue result → IsOffered self.now pot }
        ensures no { result ≡ false → IsNoHeavier self.now pot }
    {
        let Some(least) = self.offered.least(pot) else {
            return false;
        };
        least.is_at_most(pot.weight)
    }

    /// Whether the pair was offered at less.
    pub fn beats(&self, pot: Pot) -> bool
        ensures { IsTrue result → IsBeaten self.now pot }
    {
        let Some(least) = self.offered.least(pot) else {
            return false;
        };
        !pot.weight.is_at_most(least)
    }

    pub fn push(&mut self, candidate: Derived<'a>) -> Result<(), NoMemory>
        requires kept { IsKept self.old.task candidate }
        requires lighter { IsNoHeavier self.old (pot_of candidate) }
        ensures task { self.new.task ≡ self.old.task }
        ensures offers { IfOk result (λ _. Offers (λ p. p ≡ pot_of candidate.entry) self.old self.new) }
    {
        self.offered.put(candidate.pot())?;
        let number = self.offered.lane(candidate.root);
        let lane = &mut self.lanes[number as usize];
        activate(&mut self.active, lane, number)?;
        lane.push(candidate)?;
        Ok(())
    }

    pub fn pop(&mut self) -> Option<Derived<'a>>
        ensures task { self.new.task ≡ self.old.task }
        ensures offered { self.new.offered ≡ self.old.offered }
        ensures some { IfSome result (λ d. (p : Pot) → Contains self.old.waiting p → Contains (pot_of d ∷ self.new.waiting) p) }
        ensures kept { IfSome result (λ d. IsKept self.old.task d) }
        ensures none { IfNone result (self.old.waiting ≡ []) }
    {
        let Some(number) = next_lane(&mut self.active, self.lanes.as_slice()) else {
            return None;
        };
        let Some(next) = self.lanes[number as usize].pop() else {
            return None;
        };
        Some(next)
    }
}
