ghost use Rattle.std.specs.Prelude.{◌≡◌, ◌<◌, ℕ, IfOk, OnOk, length, nat_eq};
ghost use Rattle.std.specs.Cmp;
ghost use Rattle.std.specs.Cmp.Lexicographic.{pointwise, nat_list_eq_equiv};
ghost use Rattle.std.specs.Hash as fed;
ghost use Rattle.std.specs.Cmp.Rules.{hashing};
ghost use borrow.Author.Rules.{rules};
ghost use Rattle.nml_inventory.specs.Loans.{AreLoans, HasLoaned, loan_at, no_loan};
ghost use Rattle.nml_inventory.specs.Tables.{lending_nodes};

use crate::numbered::Numbered;
use alias_merge::Groups;
use indexmap::IndexSet;
use keyed_hash::Keyed;
use ml_base::{Id, NoMemory};
use nml_elements::{Element, SwitchE};
use std::alloc::Global;
use std::hash::{Hash, Hasher};
use std::marker::Model;

/// The numbers of Nodes, which contracts see as their list.
#[derive(Drop)]
pub struct NodeList {
    numbers: Vec<u32>,
}

impl Model for NodeList {
    ghost use Rattle.std.specs.Prelude.{List, ℕ};

    ghost Value = { List ℕ };

    ghost view = { λ list. list.numbers.items };
}

impl NodeList {
    fn new(alloc: Global, numbers: &[u32]) -> Result<NodeList, NoMemory>
        ensures { IfOk result (λ list. list ≡ numbers.now) }
    {
        match Vec::from_slice(alloc, numbers) {
            Ok(numbers) => Ok(NodeList { numbers }),
            Err(_) => Err(NoMemory),
        }
    }

    pub fn as_slice(&self) -> &[u32]
        ensures { result.now ≡ self.now }
    {
        self.numbers.as_slice()
    }
}

impl PartialEq for NodeList {
    ghost eq = { λ x y. pointwise nat_eq x y };

    ghost laws = { Cmp.partial_equiv_from_equiv nat_list_eq_equiv };

    fn eq(&self, other: &Self) -> bool {
        self.numbers == other.numbers
    }
}

impl Eq for NodeList {
    ghost laws = { nat_list_eq_equiv };
}

impl Hash for NodeList {
    ghost hash_input = { λ list. fed.slice fed.u32 list };

    ghost respects_eq = { Prim.search (hashing, rules) };

    fn hash<H: Hasher>(&self, state: &mut H) {
        self.numbers.hash(state);
    }
}

/// What decides which ports are lent to an element: the encoding that it states, and the Nodes that name it.
#[derive(PartialEq, Eq, Hash, Drop)]
pub struct Loan {
    pub encoding: Option<Id>,
    pub nodes: NodeList,
}

/// The loans of all elements, each kept once.
#[derive(Drop)]
pub struct Loans {
    pub kinds: IndexSet<Loan, Keyed>,
    /// For each element the place of its loan.
    pub rows: Vec<usize>,
}

/// Finds the loans of all elements, by the Nodes that name each as a service.
pub fn loans_of(alloc: Global, numbered: &Numbered, nodes: &Groups) -> Result<Loans, NoMemory>
    requires { nodes.now ≡ lending_nodes numbered.now }
    ensures { IfOk result (λ loans. AreLoans numbered.now loans.kinds.keys loans.rows.items) }
{
    let mut kinds = IndexSet::with_hasher(alloc, numbered.hashing());
    let mut rows = Vec::new(alloc);
    for number in 0..numbered.elements() {
        let loan = loan_of(alloc, nodes, number, numbered.at(u64::from(number)))?;
        add_loan(&mut kinds, &mut rows, loan)?;
    }
    Ok(Loans { kinds, rows })
}

/// Adds the loan of one more element. An equal one is kept once.
fn add_loan(
    kinds: &mut IndexSet<Loan, Keyed>,
    rows: &mut Vec<usize>,
    loan: Loan,
) -> Result<(), NoMemory>
    ensures { OnOk result (HasLoaned kinds.old.keys kinds.new.keys rows.old.items rows.new.items loan) }
{
    let Ok(put) = kinds.insert_full(loan) else {
        return Err(NoMemory);
    };
    let Ok(()) = rows.push(put.0) else {
        return Err(NoMemory);
    };
    Ok(())
}

/// The loan of an element, which is empty but for a SwitchingService that lists nothing.
fn loan_of(alloc: Global, nodes: &Groups, number: u32, element: &Element) -> Result<Loan, NoMemory>
    requires { number < length nodes.now }
    ensures { IfOk result (λ loan. loan ≡ loan_at nodes.now number element.now) }
{
    match element {
        Element::Switching(s) => {
            if s.inbound.is_none() && s.outbound.is_none() {
                lent_by(alloc, s, nodes.of(number))
            } else {
                none_lent(alloc)
            }
        }
        Element::Node(_) => none_lent(alloc),
        Element::Port(_) => none_lent(alloc),
        Element::Link(_) => none_lent(alloc),
        Element::Adaptation(_) => none_lent(alloc),
        Element::Deadaptation(_) => none_lent(alloc),
        Element::Conversion(_) => none_lent(alloc),
    }
}

/// The loan of a service by these Nodes.
fn lent_by(alloc: Global, service: &SwitchE, nodes: &[u32]) -> Result<Loan, NoMemory>
    ensures { IfOk result (λ loan. loan ≡ record { encoding = service.now.encoding; nodes = nodes.now }) }
{
    let encoding = shared(&service.encoding)?;
    let nodes = NodeList::new(alloc, nodes)?;
    Ok(Loan { encoding, nodes })
}

fn none_lent(alloc: Global) -> Result<Loan, NoMemory>
    ensures { IfOk result (λ loan. loan ≡ no_loan) }
{
    let nodes = NodeList::new(alloc, &[])?;
    Ok(Loan {
        encoding: None,
        nodes,
    })
}

fn shared(encoding: &Option<Id>) -> Result<Option<Id>, NoMemory>
    ensures { IfOk result (λ other. other ≡ encoding.now) }
{
    match encoding {
        Some(encoding) => Ok(Some(encoding.share()?)),
        None => Ok(None),
    }
}
