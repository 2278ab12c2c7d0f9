ghost use Rattle.std.specs.Prelude.{◌≡◌, unwrap_or};
ghost use Rattle.id_numbers.specs.Numbers.{number_at};
ghost use Rattle.line_text.specs.Cursor.{Gives};
ghost use Rattle.sizes_text.specs.Table.{nothing, with_size};

use crate::line::{Measure, SizeLine};
use id_numbers::IdNumbers;
use line_text::Refused;
use ml_base::Id;
use std::alloc::Global;
use std::marker::Model;

/// Sizes of frames by id: the octets that a frame gets more, and the octets that it may have.
#[derive(Drop)]
pub struct Sizes {
    overheads: IdNumbers,
    octets: IdNumbers,
}

impl Model for Sizes {
    ghost use Rattle.sizes_text.specs.Table.{SizeTable};

    ghost Value = { SizeTable };

    ghost view = { λ s. record { overheads = s.overheads; octets = s.octets } };
}

impl Sizes {
    /// No sizes.
    pub(crate) fn new(alloc: Global) -> Sizes
        ensures { result ≡ nothing }
    {
        Sizes {
            overheads: IdNumbers::new(alloc),
            octets: IdNumbers::new(alloc),
        }
    }

    /// Adds a size, which must not be told yet.
    pub(crate) fn add(&mut self, size: SizeLine) -> Result<(), Refused>
        ensures { Gives (λ x. self.new) result (with_size self.old size) }
    {
        match size.measure {
            Measure::Overhead => self.overheads.add(size.id, size.number),
            Measure::Octets => self.octets.add(size.id, size.number),
        }
    }

    /// The octets that a frame gets more at this id: 0 where none are told. It takes no memory.
    pub fn overhead(&self, id: &Id) -> u32
        ensures { result ≡ unwrap_or (number_at self.now.overheads id.now) 0 }
    {
        self.overheads.get(id).unwrap_or(0)
    }

    /// The octets that a frame may have at this id, where they are told. It takes no memory.
    pub fn limit(&self, id: &Id) -> Option<u32>
        ensures { result ≡ number_at self.now.octets id.now }
    {
        self.octets.get(id)
    }
}
