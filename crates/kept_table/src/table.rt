ghost use Rattle.std.specs.Prelude.{◌≡◌, length, map};
ghost use Rattle.std.specs.Rc.{rc_str_bytes};
ghost use Rattle.label_atoms.specs.Alike.{Climbing};
ghost use Rattle.kept_table.specs.Rows.{AreRows, row_of};
ghost use Rattle.kept_table.specs.Table.{labels_in};

use indexmap::IndexSet;
use keyed_hash::Keyed;
use label_atoms::Kept;
use ml_base::Id;
use std::alloc::Global;
use std::marker::Model;
use std::rc::RcStr;

/// A label type, with its kept labels.
#[derive(Drop)]
pub struct KeptRow {
    pub labeltype: Id,
    pub kept: Kept,
}

/// The kept labels of a network, by label type.
#[derive(Drop)]
pub struct KeptTable {
    types: IndexSet<RcStr<Global>, Keyed>,
    rows: Vec<KeptRow>,
}

impl Model for KeptTable {
    ghost use Rattle.std.specs.Prelude.{List, map};
    ghost use Rattle.std.specs.Rc.{rc_str_bytes};
    ghost use Rattle.kept_table.specs.Table.{KeptOfType};
    ghost use Rattle.kept_table.specs.Rows.{AreRows, row_of};

    ghost Value = { List KeptOfType };

    ghost view = { λ table. map row_of table.rows.items };

    ghost invariant = { λ table. AreRows (map rc_str_bytes table.types.keys) table.rows.items };
}

impl KeptTable {
    /// The table of these rows, whose label types are these.
    pub(crate) fn new(types: IndexSet<RcStr<Global>, Keyed>, rows: Vec<KeptRow>) -> KeptTable
        requires { AreRows (map rc_str_bytes types.keys) rows.items }
        ensures { result ≡ map row_of rows.items }
    {
        KeptTable { types, rows }
    }

    /// How many label types the classes and the links have.
    pub fn types(&self) -> u64
        ensures { result ≡ length self.now }
    {
        self.rows.len() as u64
    }

    /// The kept labels of a label type, rising, and none for a label type that no class and no link has.
    pub fn labels(&self, labeltype: &Id) -> &[u32]
        ensures value { result.now ≡ labels_in self.now labeltype.now }
        ensures rise { Climbing 0 result.now }
    {
        match self.types.get_index_of(labeltype.text()) {
            Some(place) => self.rows[place].kept.labels(),
            None => &[],
        }
    }
}
