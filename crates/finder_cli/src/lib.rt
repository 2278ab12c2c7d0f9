//! One run of the program: what its words ask for is done, its reply is printed, and its status answered.
//!
//! `specs/Answers.antt` says how words may be answered. `specs/Headline.antt` and `specs/Sentences.antt` say it in the words of the network that the files
//! describe. Both are clauses of `run`.
#![tactic(auto)]

mod top;

pub use top::run;
