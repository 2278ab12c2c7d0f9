use crate::Element;
use crate::lifetimes::Lifetime;

/// An element, and how long it exists.
#[derive(Debug, Drop)]
pub struct Living {
    pub element: Element,
    pub lifetime: Option<Lifetime>,
}
