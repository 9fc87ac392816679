ghost use Rattle.std.specs.Prelude.{◌≡◌, ◌≤◌, [], ◌∷◌, ◌++◌, ℕ, List, take, take_while, length, IfSome, IfNone, IsTrue, map, Ok, Err};
ghost use Rattle.std.specs.List.{list_all};
ghost use Rattle.noise_names.specs.Names.{modifier, is_base_byte, base_front, is_base};
ghost use Rattle.noise_names.specs.Sections.{modifiers_read, section_read};

use crate::{NameFault, ProtocolName, PskPlaces};
use arrayvec::ArrayVec;

// The base and the psk places of a pattern section, or the first of the faults Base, Modifier and ModifierOrder.
pub(crate) fn parse_section(section: &[u8]) -> Result<ProtocolName, NameFault>
    ensures { result ≡ section_read section.now }
{
    let (base, modifiers) = section.split_at(base_len(section));
    if !is_base(base) {
        return Err(NameFault::Base);
    }
    let places = parse_modifiers(modifiers)?;
    Ok(ProtocolName::of(base, places))
}

fn is_base_byte(byte: u8) -> bool
    ensures { result ≡ is_base_byte byte }
{
    matches!(byte, b'A'..=b'Z' | b'0'..=b'9')
}

/// How many upper-case letters and digits are at the front of a pattern section.
pub fn base_len(section: &[u8]) -> usize
    ensures { result ≡ length (base_front section.now) }
{
    section.iter().take_while(|b| is_base_byte(**b)).count()
}

fn are_base_bytes(bytes: &[u8]) -> bool
    ensures { result ≡ list_all is_base_byte bytes.now }
{
    bytes.iter().all(|b| is_base_byte(*b))
}

fn is_base(base: &[u8]) -> bool
    ensures { result ≡ is_base base.now }
{
    match base.split_first() {
        None => false,
        Some((first, others)) => {
            first.is_ascii_uppercase() && are_base_bytes(others) && others.len() < 8
        }
    }
}

// The psk places of modifiers that stand after a base, or the first of the faults Modifier and ModifierOrder.
fn parse_modifiers(modifiers: &[u8]) -> Result<PskPlaces, NameFault>
    ensures { result ≡ modifiers_read modifiers.now }
{
    if modifiers.is_empty() {
        return Ok(PskPlaces::none());
    }
    // Ten numbers are too many to rise from 0 to 8.
    let mut numbers: ArrayVec<u8, 10> = ArrayVec::new();
    let mut rest = modifiers;
    loop {
        let Some((number, after)) = first_modifier(rest) else {
            return Err(NameFault::Modifier);
        };
        push_number(&mut numbers, number);
        if after.is_empty() {
            break;
        }
        let Some(more) = after.strip_prefix(b"+") else {
            return Err(NameFault::Modifier);
        };
        rest = more;
    }
    PskPlaces::new(&numbers).ok_or(NameFault::ModifierOrder)
}

// Appends the number if there is room.
fn push_number<const N: usize>(numbers: &mut ArrayVec<u8, N>, number: u8)
    ensures { numbers.new.items ≡ take N (numbers.old.items ++ number ∷ []) }
{
    if !numbers.is_full() {
        numbers.push(number);
    }
}

// The modifier at the front, and what follows it.
fn first_modifier(modifiers: &[u8]) -> Option<(u8, &[u8])>
    ensures some { IfSome result (λ r. (r.0 ≤ 8) × (modifiers.now ≡ modifier r.0 ++ r.1.now)) }
    ensures none { IfNone result ((n : ℕ) (after : List ℕ) → n ≤ 8 → modifiers.now ≡ modifier n ++ after → ⊥) }
{
    let (digit, after) = modifiers.strip_prefix(b"psk")?.split_first()?;
    if *digit < b'0' || *digit > b'8' {
        return None;
    }
    Some((*digit - b'0', after))
}
