ghost use Rattle.std.specs.Prelude.{◌≡◌, ◌++◌, ◌∷◌, [], ◌<◌, ℕ, Some, IfOk, OnOk, length, map, slice_get, slice_set};
ghost use Rattle.std.specs.Rc.{rc_str_bytes};
ghost use Rattle.label_sets.specs.Ranges.{has};
ghost use Rattle.kept_table.specs.Gathering.{AddsLabels, AddsSet, AddsSingle, AreByType, HasPlace, types_of};

use indexmap::IndexSet;
use keyed_hash::Keyed;
use label_sets::LabelSet;
use ml_base::{Id, Items, NoMemory};
use nml_elements::Labels;
use std::alloc::Global;
use std::marker::Model;
use std::rc::RcStr;

/// The sets of a label type, and the labels that the request states at ports of it.
#[derive(Drop)]
pub struct TypeTests {
    pub labeltype: Id,
    pub sets: Items<LabelSet>,
    pub singles: Items<u32>,
}

/// The sets and the stated labels by label type, each type once.
#[derive(Drop)]
pub struct Gathered {
    types: IndexSet<RcStr<Global>, Keyed>,
    tests: Vec<TypeTests>,
}

impl Model for Gathered {
    ghost use Rattle.std.specs.Prelude.{List, map};
    ghost use Rattle.std.specs.Rc.{rc_str_bytes};
    ghost use Rattle.kept_table.specs.declared.gathered.TypeTests.{TypeTests as Tests};
    ghost use Rattle.kept_table.specs.Gathering.{AreByType};

    ghost Value = { List Tests };

    ghost view = { λ gathered. gathered.tests.items };

    ghost invariant = { λ gathered. AreByType (map rc_str_bytes gathered.types.keys) gathered.tests.items };
}

impl Gathered {
    /// Nothing yet, by label types that hash by the key.
    pub fn new(alloc: Global, key: Keyed) -> Gathered
        ensures { result ≡ [] }
    {
        Gathered {
            types: IndexSet::with_hasher(alloc, key),
            tests: Vec::new(alloc),
        }
    }

    /// With the set of the labels, where they are labelled.
    pub fn with_labels(self, alloc: Global, labels: &Labels) -> Result<Gathered, NoMemory>
        ensures { IfOk result (AddsLabels labels.now self) }
    {
        match labels {
            Labels::Unlabelled => Ok(self),
            Labels::Of { labeltype, set } => {
                let set = copied(alloc, set)?;
                self.with_set(alloc, labeltype, set)
            }
        }
    }

    fn with_set(self, alloc: Global, labeltype: &Id, set: LabelSet) -> Result<Gathered, NoMemory>
        ensures { IfOk result (AddsSet self labeltype.now set) }
    {
        let Gathered {
            mut types,
            mut tests,
        } = self;
        let place = place_of(alloc, &mut types, &mut tests, labeltype)?;
        push_set(&mut tests, place, set)?;
        Ok(Gathered { types, tests })
    }

    /// With a label that the request states at a port of the label type.
    pub fn with_single(
        self,
        alloc: Global,
        labeltype: &Id,
        label: u32,
    ) -> Result<Gathered, NoMemory>
        ensures { IfOk result (AddsSingle self labeltype.now label) }
    {
        let Gathered {
            mut types,
            mut tests,
        } = self;
        let place = place_of(alloc, &mut types, &mut tests, labeltype)?;
        push_single(&mut tests, place, label)?;
        Ok(Gathered { types, tests })
    }

    /// What is gathered of each label type.
    pub fn tests(&self) -> &[TypeTests]
        ensures tests { result.now ≡ self.now }
        ensures once { AreByType (types_of result.now) result.now }
    {
        self.tests.as_slice()
    }

    /// The label types, in the order of what is gathered.
    pub fn into_types(self) -> IndexSet<RcStr<Global>, Keyed>
        ensures { map rc_str_bytes result.keys ≡ types_of self }
    {
        self.types
    }
}

/// The place of a label type, behind the others if it is a new one.
fn place_of(
    alloc: Global,
    types: &mut IndexSet<RcStr<Global>, Keyed>,
    tests: &mut Vec<TypeTests>,
    labeltype: &Id,
) -> Result<usize, NoMemory>
    requires { AreByType (map rc_str_bytes types.old.keys) tests.old.items }
    ensures { IfOk result (HasPlace (map rc_str_bytes types.new.keys) tests.old.items tests.new.items labeltype.now) }
{
    let key = labeltype.key()?;
    let Ok(put) = types.insert_full(key) else {
        return Err(NoMemory);
    };
    if !put.1 {
        return Ok(put.0);
    }
    push_type(alloc, tests, labeltype)?;
    Ok(put.0)
}

fn push_type(alloc: Global, tests: &mut Vec<TypeTests>, labeltype: &Id) -> Result<(), NoMemory>
    ensures { OnOk result (tests.new.items ≡ tests.old.items ++ record { labeltype = labeltype.now; sets = []; singles = [] } ∷ []) }
{
    let labeltype = labeltype.share()?;
    let sets = Items::new(alloc);
    let singles = Items::new(alloc);
    match tests.push(TypeTests {
        labeltype,
        sets,
        singles,
    }) {
        Ok(()) => Ok(()),
        Err(_) => Err(NoMemory),
    }
}

fn push_set(tests: &mut Vec<TypeTests>, place: usize, set: LabelSet) -> Result<(), NoMemory>
    requires { place < length tests.old.items }
    ensures { OnOk result ((at : TypeTests) → slice_get tests.old.items place ≡ Some at → tests.new.items ≡ slice_set tests.old.items place (record at { sets = at.sets ++ set ∷ [] })) }
{
    tests[place].sets.push(set)
}

fn push_single(tests: &mut Vec<TypeTests>, place: usize, label: u32) -> Result<(), NoMemory>
    requires { place < length tests.old.items }
    ensures { OnOk result ((at : TypeTests) → slice_get tests.old.items place ≡ Some at → tests.new.items ≡ slice_set tests.old.items place (record at { singles = at.singles ++ label ∷ [] })) }
{
    tests[place].singles.push(label)
}

/// A set of the same labels.
fn copied(alloc: Global, set: &LabelSet) -> Result<LabelSet, NoMemory>
    ensures { IfOk result (λ copy. (n : ℕ) → has copy n ≡ has set.now n) }
{
    set.meet(alloc, set)
}
