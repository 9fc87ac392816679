//! What `noise talk` prints of a file whose lines fit: a theorem on a call that no program makes.
#![tactic(auto)]

mod laws;
#[cfg(test)]
mod tests;
mod transcript;

pub use laws::fitting_messages_run;
pub use transcript::talk;
