use crate::given::Given;
use crate::todo::Todo;
use ml_base::{Root, StateNo};

/// A set of walks whose next segment from the end is to be chosen: under the root to the state.
#[derive(Clone, Copy)]
pub struct Choice<'a> {
    pub rest: &'a Todo<'a>,
    pub root: Root,
    pub state: StateNo,
    pub given: Given<'a>,
}
