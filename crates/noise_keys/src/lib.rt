//! The key pairs of a party, by the public keys and DH results that they give, and the tokens that send and take them
//! (Noise, revision 34, sections 3, 4.1, 5.3, 7.1 and 12.1).
#![tactic(auto)]

mod faults;
mod key_tokens;
mod keys;
mod table_keys;
mod xor_keys;

pub use faults::SetupFault;
pub use key_tokens::{has_token, own_at, sends, sends_in, token_of};
pub use keys::{Agreeing, Keys, Own};
pub use table_keys::{TableFull, TableKeys};
pub use xor_keys::XorKeys;
