//! The sentences on a party that can't be made.

use crate::excerpt::push_sentences;
use noise_keys::SetupFault;
use noise_lines::role_word;
use noise_names::Role;
use std::alloc::{AllocError, Global};

// What this party's end lacks, and what mends it.
#[rattlefmt::skip]
pub(crate) fn setup_lines(alloc: Global, role: Role, why: SetupFault) -> Result<Vec<u8>, AllocError> {
    let own = role_word(role);
    let remote = role_word(role.other());
    let (says, mends) = match why {
        SetupFault::EphemeralMissing => (
            format!(in alloc; "The pattern needs an ephemeral key of the {own}, and its line has none.")?,
            format!(in alloc; "Put one in place of the first - in the line of the {own}.")?,
        ),
        SetupFault::StaticMissing => (
            format!(in alloc; "The pattern needs a static key of the {own}, and its line has none.")?,
            format!(in alloc; "Put one in place of the second - in the line of the {own}.")?,
        ),
        SetupFault::RemoteMissing => (
            format!(in alloc; "The {own} knows a key of the {remote} before the first message, and the line of the {remote} has none.")?,
            format!(in alloc; "Put it in place of - in the line of the {remote}: the first is the ephemeral key, the second the static one.")?,
        ),
        SetupFault::RemoteUnexpected => (
            format!(in alloc; "The {own} is given a key of the {remote} that the pattern doesn't name above the messages.")?,
            format!(in alloc; "Put - in its place in the line of the {remote}.")?,
        ),
        SetupFault::PskCount => (
            String::from_str(alloc, "The file has another number of psk lines than the pattern has psk tokens.")?,
            String::from_str(alloc, "Write one psk line for each psk token, in the order of the tokens.")?,
        ),
    };
    let mut lines = Vec::new(alloc);
    push_sentences(&[says.as_str(), mends.as_str()], &mut lines)?;
    Ok(lines)
}
