//! Which DH tokens a pattern has.

ghost use Rattle.std.specs.Prelude.{◌≡◌};
ghost use Rattle.noise_explain.specs.Template.{occurs_in};

use noise_keys::has_token;
use noise_names::{Message, Token};

// Whether a message has the token.
pub(crate) fn mixes(messages: &[Message], dh: Token) -> bool
    ensures { result ≡ occurs_in dh messages.now }
{
    for message in messages {
        if has_token(message.tokens(), dh) {
            return true;
        }
    }
    false
}
