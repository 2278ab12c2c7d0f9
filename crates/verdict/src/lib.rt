//! Which rule of a certificate fails, and at which line of the document.
//!
//! A certificate (`answer_spec`) keeps twelve rules. With the grammar before them they are thirteen, and [`Rule`] numbers them. Of a
//! document that is no certificate the least failing [`Rule`] is told, and the least line at which it fails. Contracts see
//!
//! - `Passes`: what each rule asks of an answer, and `Fails`: at which line it fails;
//! - `IsFirstFault`: the first failing rule, with its line;
//! - `IsVerdict`: the [`Verdict`] on the bytes of a document.
//!
//! Nothing here checks a document; the laws say that a text has one verdict at most, and that a valid one has a certificate.
#![tactic(auto)]

mod laws;
mod rules;
mod verdicts;

pub use laws::{
    accepted_documents_are_valid, failing_rules_do_not_pass, fault_is_one,
    faulty_answers_have_no_certificate, parts_make_the_whole, rules_make_certificates,
    verdict_is_one,
};
pub use rules::Rule;
pub use verdicts::{CheckFault, Verdict};
