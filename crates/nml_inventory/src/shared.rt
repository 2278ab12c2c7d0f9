ghost use Rattle.std.specs.Prelude.{◌≡◌, ◌<◌, All, [], ℕ, IfOk, IsTrue, Some, length, map, slice_index_or};
ghost use Rattle.ml_base.specs.declared.numbers.PortNo.{PortNo as PortNumber};
ghost use Rattle.nml_inventory.specs.Loans.{shared};

use crate::relation::Relation;
use ml_base::{NoMemory, PortNo};
use std::alloc::{AllocError, Global};
use std::marker::Model;

/// For each element a list of ports, which elements may share. Contracts see the lists of their numbers, one for each element.
#[derive(Drop)]
pub struct Shared {
    lists: Relation,
    rows: Vec<usize>,
    /// For each list the first element that it is of, where the lists are in the order of these. It serves speed alone: who reads compares.
    firsts: Vec<usize>,
}

impl Model for Shared {
    ghost use Rattle.std.specs.Prelude.{◌<◌, All, List, ℕ, length};
    ghost use Rattle.nml_inventory.specs.Loans.{shared};

    ghost Value = { List (List ℕ) };

    ghost view = { λ s. shared s.lists s.rows.items };

    ghost invariant = { λ s. All (λ row. row < length s.lists) s.rows.items };
}

impl Shared {
    /// The lists, and for each element which of them is its own.
    pub fn new(alloc: Global, lists: Relation, rows: &[usize]) -> Result<Shared, NoMemory>
        requires { All (λ row. row < length lists) rows.now }
        ensures { IfOk result (λ table. table ≡ shared lists rows.now) }
    {
        let Ok(firsts) = firsts_of(alloc, rows) else {
            return Err(NoMemory);
        };
        match Vec::from_slice(alloc, rows) {
            Ok(rows) => Ok(Shared {
                lists,
                rows,
                firsts,
            }),
            Err(_) => Err(NoMemory),
        }
    }

    /// The ports of the element of this number.
    pub fn of(&self, number: u64) -> &[PortNo]
        requires { number < length self.now }
        ensures { map (λ (p : PortNumber). p.0) result.now ≡ slice_index_or self.now number [] }
    {
        self.lists.of(self.rows[number as usize] as u64)
    }

    /// The first element with the list of this one, where that is another.
    pub fn before(&self, number: u64) -> Option<u64>
        requires { number < length self.now }
        ensures { (other : ℕ) → result ≡ Some other → (other < number) × (slice_index_or self.now other [] ≡ slice_index_or self.now number []) }
    {
        let row = self.rows[number as usize];
        let Some(first) = self.firsts.get(row) else {
            return None;
        };
        let other = *first as u64;
        if other < number && self.is_same(number, other) {
            return Some(other);
        }
        None
    }

    /// Whether two elements share a list.
    pub fn is_same(&self, number: u64, other: u64) -> bool
        requires number { number < length self.now }
        requires other { other < length self.now }
        ensures { IsTrue result → slice_index_or self.now other [] ≡ slice_index_or self.now number [] }
    {
        self.rows[number as usize] == self.rows[other as usize]
    }
}

/// The places at which 0, 1, 2 and so on come first, where they come in this order.
fn firsts_of(alloc: Global, rows: &[usize]) -> Result<Vec<usize>, AllocError> {
    let mut firsts = Vec::new(alloc);
    for place in 0..rows.len() {
        if rows[place] == firsts.len() {
            firsts.push(place)?;
        }
    }
    Ok(firsts)
}
