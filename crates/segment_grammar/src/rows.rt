ghost use Rattle.std.specs.Prelude.{◌≡◌, ◌<◌, ◌≤◌, IfOk, OnErr, length, map};
ghost use Rattle.segment_grammar.specs.Rows.{row_of, with_item, no_rows, IsGrown};

use ml_base::NoMemory;
use std::alloc::Global;
use std::marker::Model;

/// Rows of items, which contracts see as a list of lists. Memory is taken only for rows up to the last one that an item was put into.
#[derive(Drop)]
pub struct Rows<T> {
    alloc: Global,
    count: u64,
    lists: Vec<Vec<T>>,
}

impl<T> Model for Rows<T> {
    ghost use Rattle.std.specs.Prelude.{◌≤◌, List, length, map};
    ghost use Rattle.std.specs.Coded.{coded_list};
    ghost use Rattle.segment_grammar.specs.Rows.{filled_up};

    ghost Value = { List (List T) };

    ghost coded = { coded_list (coded_list T.code) };

    ghost view = { λ r. filled_up r.count (map (λ v. v.items) r.lists.items) };

    ghost invariant = { λ r. length r.lists.items ≤ r.count };
}

/// Opens rows behind the others, up to this many in all.
fn grow<T: Drop>(alloc: Global, lists: &mut Vec<Vec<T>>, count: u64) -> Result<(), NoMemory>
    ensures grown { IsGrown (map (λ v. v.items) lists.old.items) count (map (λ v. v.items) lists.new.items) }
    ensures enough { IfOk result (λ _. count ≤ length lists.new.items) }
{
    for _ in lists.len() as u64..count {
        if lists.push(Vec::new(alloc)).is_err() {
            return Err(NoMemory);
        }
    }
    Ok(())
}

impl<T: Drop> Rows<T> {
    /// This many empty rows.
    pub fn new(alloc: Global, count: u64) -> Rows<T>
        ensures { result ≡ no_rows count }
    {
        Rows {
            alloc,
            count,
            lists: Vec::new(alloc),
        }
    }

    /// The items of a row. It has none where there is no such row.
    pub fn row(&self, row: u64) -> &[T]
        ensures { result.now ≡ row_of self.now row }
    {
        match self.lists.get(row as usize) {
            Some(list) => list.as_slice(),
            None => &[],
        }
    }

    /// Puts an item at the end of a row. A refusal changes nothing.
    pub fn add(&mut self, row: u64, item: T) -> Result<(), NoMemory>
        requires { row < length self.old }
        ensures added { IfOk result (λ _. self.new ≡ with_item self.old row item) }
        ensures refused { OnErr result (self.new ≡ self.old) }
    {
        grow(self.alloc, &mut self.lists, row + 1)?;
        if self.lists[row as usize].push(item).is_err() {
            return Err(NoMemory);
        }
        Ok(())
    }
}
