ghost use Rattle.std.specs.Prelude.{◌≡◌, ◌≤◌, ◌+◌, ◌*◌, ◌++◌, ◌==◌, length, map, not, bytes_eq, take_while, IsTrue, IfOk, IfErr, Ok};
ghost use Rattle.std.specs.List.{join_with_byte};
ghost use Rattle.arrayvec.specs.ArrayVec.{array_vec_len};
ghost use Rattle.noise_names.specs.Sections.{name_read};
ghost use Rattle.noise_names.specs.Names.{suffix, name_bytes, are_places, modifier};

use crate::section::parse_section;
use crate::{NameFault, PskPlaces};
use arrayvec::ArrayVec;
use std::marker::Model;

/// What every protocol name begins with (Noise, 8).
pub const NAME_PREFIX: &[u8] = b"Noise_";

/// What the protocol names of this library end with: its algorithms (Noise, 8).
pub const NAME_SUFFIX: &[u8] = b"_25519_ChaChaPoly_SHA256";

/// A protocol name (Noise, 8): its base and psk places, which are all that differs among the names of this library.
#[derive(Clone, Debug, Drop, PartialEq, Eq)]
pub struct ProtocolName {
    base: ArrayVec<u8, 8>,
    places: PskPlaces,
}

impl Model for ProtocolName {
    ghost use Rattle.std.specs.Prelude.{IsTrue};
    ghost use Rattle.noise_names.specs.Names.{Section, IsSection};

    ghost Value = { Section };

    ghost view = { λ n. record { base = n.base.items; places = n.places } };

    ghost invariant = { λ n. IsSection (record { base = n.base.items; places = n.places }) };

    ghost inverse = { λ s. record { base = record { items = s.base }; places = s.places } };
}

impl ProtocolName {
    ghost use Rattle.std.specs.Prelude.{ℕ, List};
    ghost use Rattle.noise_names.specs.Names.{Section, Names, IsFirstNameFault, is_base};

    /// The protocol name that the bytes are (Noise, 8), with any psk modifiers (9.4). A name has at most 255 bytes:
    /// `Noise_`, a base of 1 to 8 upper-case letters and digits that begins with a letter, its modifiers, and
    /// `_25519_ChaChaPoly_SHA256`. Of several faults the first in the order of [`NameFault`] is reported.
    pub fn parse(bytes: &[u8]) -> Result<ProtocolName, NameFault>
        ensures named { IfOk result (λ name. Names bytes.now name) }
        ensures every { (name : Section) → Names bytes.now name → result ≡ Ok name }
        ensures fault { IfErr result (λ fault. IsFirstNameFault bytes.now fault) }
    {
        read_name(bytes)
    }

    // The name of a base and its psk places.
    pub(crate) fn of(base: &[u8], places: PskPlaces) -> ProtocolName
        requires base { IsTrue (is_base base.now) }
        ensures value { result ≡ record { base = base.now; places = places } }
    {
        let mut copied = ArrayVec::new();
        copied.try_extend_from_slice(base).unwrap();
        ProtocolName {
            base: copied,
            places,
        }
    }

    /// The base, 1 to 8 bytes.
    pub fn base(&self) -> &[u8]
        ensures value { result.now ≡ self.now.base }
        ensures limits { IsTrue (is_base self.now.base) }
    {
        &self.base
    }

    /// The psk places.
    pub fn places(&self) -> &PskPlaces
        ensures { result.now ≡ self.now.places }
    {
        &self.places
    }

    /// The name's bytes, at most 82: `Noise_`, the pattern section, `_25519_ChaChaPoly_SHA256`.
    pub fn write(&self) -> ArrayVec<u8, 255>
        ensures written { result.items ≡ name_bytes self.now }
        ensures bound { length (name_bytes self.now) ≤ 82 }
    {
        let mut out = ArrayVec::new();
        out.try_extend_from_slice(NAME_PREFIX).unwrap();
        out.try_extend_from_slice(&self.base).unwrap();
        push_modifiers(&mut out, self.places.numbers());
        out.try_extend_from_slice(NAME_SUFFIX).unwrap();
        out
    }
}

// The name, or the first fault.
fn read_name(bytes: &[u8]) -> Result<ProtocolName, NameFault>
    ensures { result ≡ name_read bytes.now }
{
    if bytes.len() > 255 {
        return Err(NameFault::Length);
    }
    let Some(after) = bytes.strip_prefix(NAME_PREFIX) else {
        return Err(NameFault::Prefix);
    };
    let (section, algorithm) = after.split_at(section_len(after));
    let name = parse_section(section)?;
    if !is_algorithm(algorithm) {
        return Err(NameFault::Algorithm);
    }
    Ok(name)
}

// Whether the bytes are the end of a name, which names its algorithms.
fn is_algorithm(bytes: &[u8]) -> bool
    ensures { result ≡ bytes_eq bytes.now suffix }
{
    bytes == NAME_SUFFIX
}

// How many bytes come before the first `_`.
fn section_len(bytes: &[u8]) -> usize
    ensures { result ≡ length (take_while (λ b. not (b == 95)) bytes.now) }
{
    bytes.iter().take_while(|b| **b != b'_').count()
}

// Appends the modifiers of these places.
pub(crate) fn push_modifiers(out: &mut ArrayVec<u8, 255>, places: &[u8])
    requires rising { IsTrue (are_places places.now) }
    requires room { array_vec_len out.old + 5 * length places.now ≤ 255 }
    ensures written { out.new.items ≡ out.old.items ++ join_with_byte 43 (map modifier places.now) }
    ensures bound { array_vec_len out.new ≤ array_vec_len out.old + 5 * length places.now }
{
    for (i, n) in places.iter().enumerate() {
        if i > 0 {
            out.push(b'+');
        }
        out.try_extend_from_slice(b"psk").unwrap();
        out.push(b'0' + *n);
    }
}
