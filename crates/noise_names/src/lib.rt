//! Protocol names and handshake patterns of the Noise Protocol Framework (revision 34, sections 7 to 9): which names
//! and patterns there are within the limits of this library, and which patterns are valid.
#![tactic(auto)]

mod faults;
pub mod laws;
mod name;
mod pattern;
mod places;
mod psks;
mod section;
mod seen;
mod table;
mod text;
mod token;
mod valid;

pub use faults::{NameFault, PlaceFault, RuleFault, TextFault, TextFaultKind};
pub use name::{NAME_PREFIX, NAME_SUFFIX, ProtocolName};
pub use pattern::{Message, Pattern};
pub use places::PskPlaces;
pub use section::base_len;
pub use table::{fundamental, fundamental_at};
pub use token::{Role, Token};
pub use valid::ValidPattern;
