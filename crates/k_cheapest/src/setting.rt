use crate::ways::Ways;
use adapt_machine::Machine;
use bumpalo::Bump;
use ml_base::StateNo;
use segment_grammar::Potentials;

/// Which walks are asked for, and what they are made of: the steps of a machine, with the least weight of each reached pair.
#[derive(Clone, Copy)]
pub struct Setting<'m, 'a> {
    pub machine: &'m Machine,
    pub starts: &'m [StateNo],
    pub targets: &'m [StateNo],
    pub limit: u64,
    pub potentials: &'m Potentials,
    pub ways: &'m Ways,
    pub arena: &'a Bump,
}
