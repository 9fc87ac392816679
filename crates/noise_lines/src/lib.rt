//! What the command `noise` reads and writes, a file, lines and the text of each fault; and the commands that run no
//! ends: `list`, `show`, `check` and the text of `convert`.
#![tactic(auto)]

mod checking;
mod conversion;
mod fault_report;
mod faults;
mod input;
mod line;
mod listing;
mod named;
mod output;
mod overheads;
mod showing;
mod shown;
mod traced_lines;
mod valid;
mod verdict;

pub use checking::check;
pub use conversion::convert;
pub use fault_report::fault_line;
pub use faults::Fault;
pub use input::read_file;
pub use line::{Line, role_word, token_word};
pub use listing::list;
pub use named::named_pattern;
pub use output::{flush, write, write_lines};
pub use showing::show;
pub use shown::push_shown;
pub use traced_lines::write_traced;
pub use valid::{named_valid_pattern, spelled_valid_pattern};
pub use verdict::{Difference, Verdict, compare, judge, named_fault, verdict_lines};
