//! Reads vector files: what a file says that two parties of a session start from, and what is done to them.
#![tactic(auto)]

mod additions;
mod block;
mod cuts;
mod datagram_events;
mod events;
mod expectations;
mod expected;
mod faults;
mod file_keys;
mod hex_words;
mod laws;
mod lines;
mod parties;
mod reader;
mod says;
mod vector;
mod words;

pub use block::lines_before_end;
pub use cuts::read_cuts;
pub use expectations::first_unmet;
pub use faults::{LineKind, VectorFault};
pub use file_keys::FileKeys;
pub use hex_words::{hex_word, is_hex_word, read_hex};
pub use laws::vector_texts_are_unique;
pub use reader::read_vector;
pub use says::said_lines;
pub use vector::{Additions, AllowedEvents, FileDatagrams, VectorFile, Version};
pub use words::{read_key, read_number, read_optional_key, read_own, read_role};
