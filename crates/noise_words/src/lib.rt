//! The words of the command line, and the command that they name.
#![tactic(auto)]

mod choices;
mod command_line;
mod help;
mod no_command;
mod orders;

pub use command_line::chosen;
pub use no_command::{line_status, next_commands};
pub use orders::{
    Chosen, Compared, Documented, Explained, Filled, LineFault, Order, Tested, Traced, TracedPart,
    TracedRole,
};
