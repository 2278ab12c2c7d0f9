ghost use Rattle.std.specs.Prelude.{◌≡◌, ◌↔◌, ◌∷◌, ◌++◌, [], IsTrue, IfOk, IfSome, IfNone, OnErr};
ghost use Rattle.std.specs.List.Sorted.{IsPermutation};
ghost use Rattle.knuth_search.specs.Buckets.{bucket_items, waiting_in};

use crate::derived::Derived;
use ml_base::{NoMemory, Weight};
use std::alloc::Global;
use std::collections::BTreeMap;
use std::marker::Model;

/// Candidates of one weight, of which there is at least one.
#[derive(Drop)]
pub struct Bucket<'a> {
    first: Derived<'a>,
    more: Vec<Derived<'a>>,
}

/// Candidates, the lightest first. They wait in buckets, since many are of the same weight: so a candidate finds its place among few
/// weights, where in a heap it would pass many candidates. Contracts see the candidates in some order, and not the order in which
/// they leave.
#[derive(Drop)]
pub struct Lane<'a> {
    alloc: Global,
    /// What is left of the bucket that was opened last.
    left: Vec<Derived<'a>>,
    buckets: BTreeMap<Weight, Bucket<'a>>,
}

impl<'a> Model for Lane<'a> {
    ghost use Rattle.std.specs.Prelude.{List};
    ghost use denote.Signature.{static_lft};
    ghost use Rattle.std.specs.Coded.{codes};
    ghost use Rattle.knuth_search.specs.contracts.derived.Derived as derived;
    ghost use Rattle.knuth_search.specs.declared.derived.Derived.{Derived};
    ghost use Rattle.knuth_search.specs.Buckets.{candidates_of};

    ghost Value = { List Derived };

    ghost coded = { Prim.hlevel (codes, (derived.the_row static_lft).coded) };

    ghost view = { λ l. candidates_of l.left.items l.buckets.entries };
}

/// Puts a candidate behind the others of a bucket.
fn join<'a>(bucket: &mut Bucket<'a>, candidate: Derived<'a>) -> Result<(), NoMemory>
    ensures joined { IfOk result (λ _. bucket_items bucket.new ≡ bucket_items bucket.old ++ candidate.entry ∷ []) }
    ensures refused { OnErr result (bucket_items bucket.new ≡ bucket_items bucket.old) }
{
    match bucket.more.push(candidate) {
        Ok(()) => Ok(()),
        Err(_) => Err(NoMemory),
    }
}

/// Puts a candidate into the bucket of its weight.
fn put<'a>(
    alloc: Global,
    buckets: &mut BTreeMap<Weight, Bucket<'a>>,
    candidate: Derived<'a>,
) -> Result<(), NoMemory>
    ensures waiting { IfOk result (λ _. IsPermutation (candidate.entry ∷ waiting_in buckets.old.entries) (waiting_in buckets.new.entries)) }
    ensures refused { OnErr result (waiting_in buckets.new.entries ≡ waiting_in buckets.old.entries) }
{
    match buckets.get_mut(&candidate.weight) {
        Some(bucket) => join(bucket, candidate),
        None => {
            let bucket = Bucket {
                first: candidate,
                more: Vec::new(alloc),
            };
            match buckets.insert(candidate.weight, bucket) {
                Ok(_) => Ok(()),
                Err(_) => Err(NoMemory),
            }
        }
    }
}

impl<'a> Lane<'a> {
    pub fn new(alloc: Global) -> Lane<'a>
        ensures { result ≡ [] }
    {
        Lane {
            alloc,
            left: Vec::new(alloc),
            buckets: BTreeMap::new(alloc),
        }
    }

    /// Whether nothing waits.
    pub fn is_empty(&self) -> bool
        ensures { IsTrue result ↔ (self.now ≡ []) }
    {
        self.left.is_empty() && self.buckets.is_empty()
    }

    /// Puts in a candidate. A refusal leaves the candidates as they were.
    pub fn push(&mut self, candidate: Derived<'a>) -> Result<(), NoMemory>
        ensures waiting { IfOk result (λ _. IsPermutation (candidate.entry ∷ self.old) self.new) }
        ensures refused { OnErr result (self.new ≡ self.old) }
    {
        put(self.alloc, &mut self.buckets, candidate)
    }

    /// Takes out a candidate, of the least weight but for those that were put in since their bucket was opened.
    pub fn pop(&mut self) -> Option<Derived<'a>>
        ensures some { IfSome result (λ d. IsPermutation self.old (d ∷ self.new)) }
        ensures none { IfNone result (self.old ≡ []) }
        ensures none_left { IfNone result (self.new ≡ []) }
    {
        if let Some(candidate) = self.left.pop() {
            return Some(candidate);
        }
        let Some((_, bucket)) = self.buckets.pop_first() else {
            return None;
        };
        self.left = bucket.more;
        Some(bucket.first)
    }
}
