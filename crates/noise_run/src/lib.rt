//! The run of a vector file: its parties, the lines of what they do, and the lines of their key schedules.
#![tactic(auto)]

mod datagram_report;
mod ends;
mod key_use_lines;
mod laws;
mod report;
mod run;
mod trace_lines;
mod traced_end;
mod traced_ends;
mod traced_event;
mod tracing;

pub use ends::{make_ends, valid_pattern};
pub use key_use_lines::{ALL_LINES, Selection};
pub use laws::{conversions_meet_themselves, file_run_once};
pub use report::{cause_word, entry_lines};
pub use run::{Outcome, replay};
pub use tracing::{Traced, trace};
