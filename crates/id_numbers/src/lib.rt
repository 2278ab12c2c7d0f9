//! Numbers by id, each id with one at most.
//!
//! Contracts see them as a list in the order of the ids (`Numbers`). Ids may be chosen by anyone: an ordered map has no bad ones.
#![tactic(auto)]

ghost use Rattle.std.specs.Prelude.{◌≡◌, [], OnOk, Some, if◌then◌else◌, length};
ghost use Rattle.std.specs.BTreeMap.{is_at};
ghost use Rattle.line_text.specs.Cursor.{Gives};
ghost use Rattle.line_text.specs.Fields.{Word};
ghost use Rattle.id_numbers.specs.Numbers.{added, id_cmp, number_at};

use line_text::Refused;
use ml_base::Id;
use std::alloc::Global;
use std::collections::BTreeMap;
use std::marker::Model;

/// Numbers by id.
#[derive(Drop)]
pub struct IdNumbers {
    numbers: BTreeMap<Id, u32>,
}

impl Model for IdNumbers {
    ghost use Rattle.id_numbers.specs.Numbers.{Numbers};

    ghost Value = { Numbers };

    ghost view = { λ n. n.numbers.entries };
}

impl IdNumbers {
    /// No numbers.
    pub fn new(alloc: Global) -> IdNumbers
        ensures { result ≡ [] }
    {
        IdNumbers {
            numbers: BTreeMap::new(alloc),
        }
    }

    /// Gives an id its number. It does not fit where the id has one.
    pub fn add(&mut self, id: Id, number: u32) -> Result<(), Refused>
        ensures added { Gives (λ x. self.new) result (added self.old id number) }
        ensures found { OnOk result ((other : Word) → number_at self.new other ≡ (if is_at (id_cmp id) other then Some number else number_at self.old other)) }
    {
        if self.numbers.contains_key(&id) {
            return Err(Refused::Misfit);
        }
        match self.numbers.insert(id, number) {
            Ok(_) => Ok(()),
            Err(_) => Err(Refused::NoMemory),
        }
    }

    /// How many ids have numbers.
    pub fn len(&self) -> u64
        ensures { result ≡ length self.now }
    {
        self.numbers.len() as u64
    }

    /// The number of an id, if it has one. It takes no memory.
    pub fn get(&self, id: &Id) -> Option<u32>
        ensures { result ≡ number_at self.now id.now }
    {
        match self.numbers.get(id) {
            Some(number) => Some(*number),
            None => None,
        }
    }
}
