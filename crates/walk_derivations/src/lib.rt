//! Each segment of a pushdown system ends in one way, so it has one derivation.
//!
//! A segment that is not empty ends with a step that keeps the stack, or with a nest: a push, a segment and a pop of the frame that
//! was pushed. A derivation says so all the way down. The theorem of this crate is that derivations and segments are one to one:
//! a derivation makes a segment ([`derivations_make_segments`]), each segment has one ([`segments_have_derivations`]), and two that
//! make the same steps are the same ([`derivations_differ_in_steps`]). So whoever goes through the derivations, each once, goes
//! through the segments, each once.
//!
//! That there is only one way holds where a step tells what it does to the stack, as the steps of a machine and the hops of a network
//! do. A step that might push here and keep the stack there could be read either way.
//!
//! The crate runs no code. Like those of `walk_grammar`, its laws are functions that are generic over a system; proofs above cite the
//! lemmas of `proofs/Deriving.antt` and `proofs/Ending.antt`, which say the same of any system.
#![tactic(auto)]

mod laws;

pub use laws::{
    derivations_differ_in_steps, derivations_make_segments, segments_end_in_one_way,
    segments_have_derivations,
};
