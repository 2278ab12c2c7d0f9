ghost use Rattle.std.specs.Prelude.{◌≡◌, ◌↔◌, IsTrue, IfOk, IsErrOf, Some, nat_eq, refl};
ghost use Rattle.std.specs.Ordering.{nat_cmp};
ghost use Rattle.std.specs.Cmp;
ghost use Rattle.std.specs.Cmp.Lexicographic.{pointwise, slice_cmp, nat_list_eq_equiv, nat_list_cmp_total, texts_ties, texts_po};
ghost use Rattle.std.specs.Hash as fed;
ghost use Rattle.std.specs.Rc.{rc_str_bytes};
ghost use Rattle.std.specs.Cmp.Rules.{hashing};
ghost use borrow.Author.Rules.{rules};
ghost use Rattle.ml_base.specs.Text.{IsIdText};

use crate::numbers::NoMemory;
use std::alloc::Global;
use std::cmp::Ordering;
use std::hash::{Hash, Hasher};
use std::marker::Model;
use std::rc::RcStr;
use thiserror::Error;

/// Why a text is refused as an id.
#[derive(Clone, Copy, Debug, PartialEq, Eq, Error)]
pub enum IdFault {
    /// It is not 1 to 255 bytes from 0x21 to 0x7E.
    #[error("not 1 to 255 visible ASCII characters")]
    Text,
    #[error("out of memory")]
    NoMemory,
}

/// An id, an encoding, a label type or a function: a shared text, which contracts see as its bytes.
#[derive(Debug, Drop)]
pub struct Id {
    text: RcStr<Global>,
}

impl Model for Id {
    ghost use Rattle.std.specs.Prelude.{List, ℕ};
    ghost use Rattle.std.specs.Rc.{rc_str_bytes};
    ghost use Rattle.ml_base.specs.Text.{IsIdText};

    ghost Value = { List ℕ };

    ghost view = { λ id. rc_str_bytes id.text };

    ghost invariant = { λ id. IsIdText (rc_str_bytes id.text) };
}

fn is_id_text(text: &str) -> bool
    ensures { IsTrue result ↔ IsIdText text.now }
{
    let bytes = text.as_bytes();
    !bytes.is_empty()
        && bytes.len() <= 255
        && bytes.iter().all(|byte| 0x21 <= *byte && *byte <= 0x7E)
}

impl Id {
    /// The id with this text.
    pub fn new(alloc: Global, text: &str) -> Result<Id, IdFault>
        ensures ok { IfOk result (λ id. (id ≡ text.now) × IsIdText text.now) }
        ensures refused { IsErrOf result IdFault.Text ↔ (¬ IsIdText text.now) }
    {
        if !is_id_text(text) {
            return Err(IdFault::Text);
        }
        match RcStr::from_str(alloc, text) {
            Ok(text) => Ok(Id { text }),
            Err(_) => Err(IdFault::NoMemory),
        }
    }

    /// An equal id over the same text.
    pub fn share(&self) -> Result<Id, NoMemory>
        ensures { IfOk result (λ id. id ≡ self.now) }
    {
        let text = self.text.clone()?;
        Ok(Id { text })
    }

    /// The shared text, as a key of a map that is looked up by texts.
    pub fn key(&self) -> Result<RcStr<Global>, NoMemory>
        ensures { IfOk result (λ key. rc_str_bytes key ≡ self.now) }
    {
        let text = self.text.clone()?;
        Ok(text)
    }

    /// The text of the id.
    pub fn text(&self) -> &str
        ensures text { result.now ≡ self.now }
        ensures id { IsIdText result.now }
    {
        self.text.as_str()
    }
}

impl PartialEq for Id {
    ghost eq = { λ x y. pointwise nat_eq x y };

    ghost laws = { Cmp.partial_equiv_from_equiv nat_list_eq_equiv };

    fn eq(&self, other: &Self) -> bool {
        self.text == other.text
    }
}

impl Eq for Id {
    ghost laws = { nat_list_eq_equiv };
}

impl PartialOrd for Id {
    ghost partial_cmp = { λ x y. Some (slice_cmp nat_cmp x y) };

    ghost laws = { texts_po };

    fn partial_cmp(&self, other: &Self) -> Option<Ordering> {
        Some(self.cmp(other))
    }
}

impl Ord for Id {
    ghost cmp = { λ x y. slice_cmp nat_cmp x y };

    ghost total = { nat_list_cmp_total };

    ghost matches_partial_cmp = { λ x y. refl };

    ghost matches_eq = { λ x y. texts_ties x y };

    fn cmp(&self, other: &Self) -> Ordering {
        self.text.cmp(&other.text)
    }
}

impl Hash for Id {
    ghost hash_input = { λ id. fed.str id };

    ghost respects_eq = { Prim.search (hashing, rules) };

    fn hash<H: Hasher>(&self, state: &mut H) {
        self.text.hash(state);
    }
}
