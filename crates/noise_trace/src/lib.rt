//! The key schedule of a handshake, token by token (Noise, revision 34, 5.2 and 5.3), and that of one party of a
//! session, call by call: the steps of its handshake messages, its two transport keys, and the key of each transport
//! message (11.3).
#![tactic(auto)]

mod direction;
mod directions;
mod end_trace;
mod key_use;
pub mod laws;
mod opening;
mod schedule;
mod start;
mod start_step;
mod step;
mod step_list;
mod values;

pub use end_trace::EndTrace;
pub use key_use::KeyUse;
pub use opening::Opening;
pub use schedule::Following;
pub use start::start_steps;
pub use start_step::{StartPart, StartStep};
pub use step::{Part, Step};
pub use values::StateValues;
