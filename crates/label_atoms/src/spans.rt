ghost use Rattle.std.specs.Prelude.{◌≡◌, ◌∷◌, [], ◌++◌, ℕ, nat_eq, if◌then◌else◌, IfOk, OnOk};
ghost use Rattle.label_sets.specs.Ranges.{has, AreProper, IsSetOf};
ghost use Rattle.label_atoms.specs.Pieces.{StartsRise};
ghost use Rattle.label_atoms.specs.Spans.{ranges_of, span, AreRangesOf};

use crate::pieces::Piece;
use label_sets::LabelSet;
use ml_base::NoMemory;
use std::alloc::Global;
use std::collections::BTreeMap;

/// The labels of each name, as ranges in any order.
pub type NamedRanges = BTreeMap<u64, Vec<(u32, u32)>>;

/// Puts the labels from the start to the end at the end, the end left out.
fn push_span(ranges: &mut Vec<(u32, u32)>, start: u64, end: u64) -> Result<(), NoMemory>
    ensures { OnOk result (ranges.new.items ≡ ranges.old.items ++ span start end) }
{
    let last = end.min(4294967296);
    if start < last {
        match ranges.push((start as u32, (last - 1) as u32)) {
            Ok(()) => Ok(()),
            Err(_) => Err(NoMemory),
        }
    } else {
        Ok(())
    }
}

/// Puts the labels from the start to the end, the end left out, to those of the name.
fn add_span(
    alloc: Global,
    ranges: &mut NamedRanges,
    name: u64,
    start: u64,
    end: u64,
) -> Result<(), NoMemory>
    ensures { OnOk result ((q : ℕ) → ranges_of ranges.new q ≡ ranges_of ranges.old q ++ (if nat_eq name q then span start end else [])) }
{
    let mut own = match ranges.remove(&name) {
        Some(own) => own,
        None => Vec::new(alloc),
    };
    push_span(&mut own, start, end)?;
    match ranges.insert(name, own) {
        Ok(_) => Ok(()),
        Err(_) => Err(NoMemory),
    }
}

/// The labels of each name of the pieces.
pub fn ranges_by_name(alloc: Global, pieces: &[Piece]) -> Result<NamedRanges, NoMemory>
    requires { StartsRise 0 pieces.now }
    ensures { IfOk result (λ ranges. (q : ℕ) → AreRangesOf pieces.now q (ranges_of ranges q)) }
{
    let mut ranges = BTreeMap::new(alloc);
    let mut start = 0;
    let mut last = 0;
    for piece in pieces {
        let (next, after) = (piece.start, piece.name);
        add_span(alloc, &mut ranges, last, start, next)?;
        start = next;
        last = after;
    }
    add_span(alloc, &mut ranges, last, start, 4294967296)?;
    Ok(ranges)
}

fn own_ranges(alloc: Global, ranges: &NamedRanges, name: u64) -> Result<Vec<(u32, u32)>, NoMemory>
    ensures { IfOk result (λ own. own.items ≡ ranges_of ranges.now name) }
{
    match ranges.get(&name) {
        Some(own) => match own.clone() {
            Ok(own) => Ok(own),
            Err(_) => Err(NoMemory),
        },
        None => Ok(Vec::new(alloc)),
    }
}

/// The labels of a name.
pub fn set_of(alloc: Global, ranges: &NamedRanges, name: u64) -> Result<LabelSet, NoMemory>
    requires { AreProper (ranges_of ranges.now name) }
    ensures { IfOk result (IsSetOf (has (ranges_of ranges.now name))) }
{
    let own = own_ranges(alloc, ranges, name)?;
    LabelSet::from_ranges(alloc, own)
}
