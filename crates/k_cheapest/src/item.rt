use crate::given::Given;
use crate::todo::Todo;
use ml_base::Weight;

/// A set of walks: those whose last steps are given, with anything before them that stands to be chosen. It has their least weight.
#[derive(Clone, Copy)]
pub struct Item<'a> {
    pub weight: Weight,
    pub todo: &'a Todo<'a>,
    pub given: Given<'a>,
}
