//! What the command `noise` does: it does what the command line asks for, and writes lines or reports a fault.
#![tactic(auto)]

mod answers;
mod compared_document;
mod comparison;
mod counted_run;
mod explanation;
mod file_facts;
mod filling;
mod laws;
mod named_files;
mod pattern_names;
mod performing;
mod printing;
mod testing;
mod trace_file;

pub use laws::templates_start;
pub use named_files::{NamedFiles, System};
pub use noise_lines::{Difference, Fault, Verdict, read_file};
pub use noise_run::{conversions_meet_themselves, entry_lines, file_run_once};
pub use noise_words::{
    Chosen, Documented, LineFault, Order, Tested, chosen, line_status, next_commands,
};
pub use pattern_names::whole_name;
pub use performing::perform;
pub use printing::print;
pub use testing::FilesByName;
