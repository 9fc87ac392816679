//! Compares a key schedule that another implementation logged with that of a vector file, line by line, and names the
//! mistakes that give its values.
//!
//! Each mistake is a definition: the values that a party with it has after a step (Noise 4.2, 4.3, 5, 7.1, 9.2, 11.3,
//! 12.3). Those of the list that give the values that a party logged are its likely mistakes.
#![tactic(auto)]

mod advice;
mod comparison;
mod cut;
mod difference;
mod equation;
mod equation_tables;
mod equation_words;
mod expansion;
mod facts;
mod finding;
mod holding;
mod keys;
mod known;
mod line;
mod log;
mod mistake;
mod mistake_tables;
mod mixing;
mod parts;
mod plain;
mod report;
mod secrets;
mod sentences;
mod shown;
mod sources;
mod state;
mod steps;
mod texts;
mod values;
mod words;

pub use comparison::{Finding, LogReport, compare_lines};
pub use cut::{push_cut, whole_lines};
pub use difference::{Difference, first_difference};
pub use facts::Facts;
pub use known::known_lines;
pub use line::Line;
pub use log::{LogFault, push_schedule, read_log};
pub use plain::{plain_text, push_skipped, written_lines};
