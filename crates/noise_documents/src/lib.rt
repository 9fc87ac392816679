//! What the documents of the commands say: the facts of a result as members of an object of JSON.
#![tactic(auto)]

mod comparison;

pub use comparison::{found_facts, named_facts, refused_facts};
