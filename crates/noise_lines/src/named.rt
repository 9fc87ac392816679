//! The pattern that a protocol name is of.

ghost use Rattle.std.specs.Prelude.{IfOk, IfErr};
ghost use Rattle.noise_lines.specs.Named.{IsNamed, IsUnnamed};

use crate::faults::Fault;
use noise_names::{Pattern, ProtocolName, fundamental};

/// The fundamental pattern of the name's base, with psk tokens at the name's places (Noise, 7.4, 7.5 and 9.4). It need
/// not be valid.
pub fn named_pattern(name: &ProtocolName) -> Result<Pattern, Fault>
    ensures named { IfOk result (λ pattern. IsNamed name.now pattern) }
    ensures fault { IfErr result (λ fault. IsUnnamed name.now fault) }
{
    let Some(plain) = fundamental(name.base()) else {
        return Err(Fault::UnknownPattern);
    };
    Pattern::with_psks(&plain, name.places()).map_err(Fault::Place)
}
