/// What becomes of the unit of a document's request.
#[derive(Clone, Copy, Debug, PartialEq, Eq)]
pub enum Replayed {
    /// The rules, this many, carry the unit; in any order where it comes back to no place, and else only by their numbers.
    Carried { rules: u64, any_order: bool },
    /// The first condition that fails, with the number of the rule where there is one, and else 0.
    NotCarried { at: u64, cause: ReplayCause },
}

/// Why the rules do not carry the unit, in the order in which the causes count.
#[derive(Clone, Copy, Debug, PartialEq, Eq)]
pub enum ReplayCause {
    /// The text is no document.
    Text,
    /// The outcome is not found.
    Outcome,
    /// A port of the request is unknown, or a stated label is not there.
    Request,
    /// The least number from 1 to the count of the rules that does not stand there exactly once.
    Number,
    /// The rule is no hop of the unit.
    NoHop,
    /// A label of the rule does not fit.
    Label,
    /// What the rule takes off is not on top.
    Frame,
    /// Behind the last rule the unit is not at an allowed place of the request's end, or frames stand round it.
    End,
}
