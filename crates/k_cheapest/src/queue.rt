ghost use Rattle.std.specs.Prelude.{◌≡◌, ◌∷◌, ◌++◌, [], IfOk, IfSome, IfNone};
ghost use Rattle.std.specs.List.Sorted.{IsPermutation};
ghost use Rattle.k_cheapest.specs.Buckets.{IsAbsent};
ghost use Rattle.k_cheapest.specs.Buckets.{opens_of, weighing, weighed, waiting_in};
ghost use Rattle.k_cheapest.specs.Items.{waiting_of, Takes};

use crate::given::Given;
use crate::item::Item;
use crate::todo::Todo;
use ml_base::{NoMemory, Weight};
use std::alloc::Global;
use std::collections::BTreeMap;

/// A set of walks, but for its weight.
#[derive(Clone, Copy)]
pub struct Open<'a> {
    todo: &'a Todo<'a>,
    given: Given<'a>,
}

/// Sets of walks of one weight, of which there is at least one.
#[derive(Drop)]
pub struct Bucket<'a> {
    first: Open<'a>,
    more: Vec<Open<'a>>,
}

/// Sets of walks that wait, in buckets by weight. Of those of one weight the last to come leaves first, so that one walk is told to its
/// first step before another of its weight is begun.
#[derive(Drop)]
pub struct Queue<'a> {
    alloc: Global,
    buckets: BTreeMap<Weight, Bucket<'a>>,
}

/// Puts a set behind the others of a bucket.
fn join<'a>(bucket: &mut Bucket<'a>, set: Open<'a>) -> Result<(), NoMemory>
    ensures { IfOk result (λ _. opens_of bucket.new ≡ opens_of bucket.old ++ set.entry ∷ []) }
{
    match bucket.more.push(set) {
        Ok(()) => Ok(()),
        Err(_) => Err(NoMemory),
    }
}

/// Puts a set into the bucket of its weight.
fn put<'a>(
    alloc: Global,
    buckets: &mut BTreeMap<Weight, Bucket<'a>>,
    weight: Weight,
    set: Open<'a>,
) -> Result<(), NoMemory>
    ensures { IfOk result (λ _. IsPermutation (weighing weight set.entry ∷ waiting_in buckets.old.entries) (waiting_in buckets.new.entries)) }
{
    match buckets.get_mut(&weight) {
        Some(bucket) => join(bucket, set),
        None => {
            let bucket = Bucket {
                first: set,
                more: Vec::new(alloc),
            };
            match buckets.insert(weight, bucket) {
                Ok(_) => Ok(()),
                Err(_) => Err(NoMemory),
            }
        }
    }
}

/// Takes a set out of a bucket that is no longer among the others, and puts what is left of it back.
fn take<'a>(
    buckets: &mut BTreeMap<Weight, Bucket<'a>>,
    weight: Weight,
    bucket: Bucket<'a>,
) -> Result<Open<'a>, NoMemory>
    requires { IsAbsent weight buckets.old.entries }
    ensures { IfOk result (λ set. IsPermutation (weighed weight bucket.entry ++ waiting_in buckets.old.entries) (weighing weight set ∷ waiting_in buckets.new.entries)) }
{
    let Bucket { first, mut more } = bucket;
    let Some(last) = more.pop() else {
        return Ok(first);
    };
    match buckets.insert(weight, Bucket { first, more }) {
        Ok(_) => Ok(last),
        Err(_) => Err(NoMemory),
    }
}

impl<'a> Queue<'a> {
    /// Nothing waits.
    pub fn new(alloc: Global) -> Queue<'a>
        ensures { waiting_of result ≡ [] }
    {
        Queue {
            alloc,
            buckets: BTreeMap::new(alloc),
        }
    }

    pub fn push(&mut self, item: Item<'a>) -> Result<(), NoMemory>
        ensures { IfOk result (λ _. IsPermutation (item.entry ∷ waiting_of self.old) (waiting_of self.new)) }
    {
        let set = Open {
            todo: item.todo,
            given: item.given,
        };
        put(self.alloc, &mut self.buckets, item.weight, set)
    }

    /// Takes out an item of least weight, in a time that grows with the logarithm of the number of weights.
    pub fn pop(&mut self) -> Result<Option<Item<'a>>, NoMemory>
        ensures some { IfOk result (λ o. IfSome o (λ i. Takes (waiting_of self.old) i (waiting_of self.new))) }
        ensures none { IfOk result (λ o. IfNone o (waiting_of self.old ≡ [])) }
    {
        let Some((weight, bucket)) = self.buckets.pop_first() else {
            return Ok(None);
        };
        let set = take(&mut self.buckets, weight, bucket)?;
        Ok(Some(Item {
            weight,
            todo: set.todo,
            given: set.given,
        }))
    }
}
