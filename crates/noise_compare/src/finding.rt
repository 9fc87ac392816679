//! The mistakes that give what was logged.

ghost use Rattle.std.specs.Prelude.{◌≡◌, IfOk, map};
ghost use Rattle.noise_compare.specs.Finding.{explains, found_mistakes, gives, is_of_steps, is_right, lacks_steps, mistakes_of, refusal_mistakes, refusing_mistakes, said, tried_mistakes};

use crate::keys::key_explains;
use crate::mistake::{HashMistake, Mistake, SecretMistake, TextMistake};
use crate::mistake_tables::{
    AGREEMENT, DATA, EPHEMERAL, NAME, OPENING, PROLOGUE, PSK, REFUSAL, RENEWAL, Row, TEXT,
    TRANSPORT,
};
use crate::mixing::{hash_explains, name_explains};
use crate::secrets::secret_explains;
use crate::state::{Kind, Logged, Situation};
use crate::texts::text_explains;
use std::alloc::{AllocError, Global};

/// The mistakes that give what was logged, of those that are tried at a step of its kind, in their order: none where
/// that is right.
pub fn mistakes(alloc: Global, at: &Situation<'_>, logged: &Logged) -> Result<Vec<Row>, AllocError>
    ensures { IfOk result (λ found. map said found.items ≡ found_mistakes at.now logged.now) }
{
    let tried = tried_mistakes(alloc, at)?;
    let mut found = Vec::new(alloc);
    for row in &tried {
        if gives(alloc, row.0, at, logged)? {
            found.push(*row)?;
        }
    }
    Ok(found)
}

/// Whether what was logged is right, as far as it was logged.
pub fn is_right(at: &Situation<'_>, logged: &Logged) -> bool
    ensures { result ≡ is_right at.now logged.now }
{
    logged.fits(at.bytes, &at.right)
}

// Whether a mistake gives what was logged, and that isn't right.
fn gives(
    alloc: Global,
    mistake: Mistake,
    at: &Situation<'_>,
    logged: &Logged,
) -> Result<bool, AllocError>
    ensures { IfOk result (λ b. b ≡ gives mistake at.now logged.now) }
{
    if is_right(at, logged) {
        return Ok(false);
    }
    explains(alloc, mistake, at, logged)
}

/// The mistakes that are tried at a step, in their order.
pub fn tried_mistakes(alloc: Global, at: &Situation<'_>) -> Result<Vec<Row>, AllocError>
    ensures { IfOk result (λ tried. map said tried.items ≡ tried_mistakes at.now) }
{
    let lacks = lacks_steps(at);
    let mut tried = Vec::new(alloc);
    for row in mistakes_of(at.kind) {
        if lacks || !is_of_steps(row.0) {
            tried.push(*row)?;
        }
    }
    Ok(tried)
}

// Whether the log has no line for a step before this one.
fn lacks_steps(at: &Situation<'_>) -> bool
    ensures { result ≡ lacks_steps at.now }
{
    let same = at.agreed.hash.as_slice() == at.before.hash.as_slice()
        && at.agreed.chaining_key.as_slice() == at.before.chaining_key.as_slice();
    !same
}

#[tactic(auto, unfolding(crate::specs::Finding::is_of_steps))]
fn is_of_steps(mistake: Mistake) -> bool
    ensures { result ≡ is_of_steps mistake }
{
    match mistake {
        Mistake::Hash(HashMistake::StepsLeftOut)
        | Mistake::Secret(SecretMistake::StepsLeftOut)
        | Mistake::Text(TextMistake::StepsLeftOut) => true,
        _ => false,
    }
}

/// The mistakes with which a party refuses right bytes: those that don't give these values.
pub fn refusing_mistakes(
    alloc: Global,
    at: &Situation<'_>,
    logged: &Logged,
) -> Result<Vec<Row>, AllocError>
    ensures { IfOk result (λ found. map said found.items ≡ refusing_mistakes at.now logged.now) }
{
    let mut found = Vec::new(alloc);
    for row in refusals() {
        if !explains(alloc, row.0, at, logged)? {
            found.push(*row)?;
        }
    }
    Ok(found)
}

#[tactic(auto, unfolding(crate::specs::Finding::refusal_mistakes))]
fn refusals() -> &'static [Row]
    ensures { map said result.now ≡ refusal_mistakes }
{
    &REFUSAL
}

#[tactic(auto, unfolding(crate::specs::Finding::explains))]
fn explains(
    alloc: Global,
    mistake: Mistake,
    at: &Situation<'_>,
    logged: &Logged,
) -> Result<bool, AllocError>
    ensures { IfOk result (λ b. b ≡ explains mistake at.now logged.now) }
{
    match mistake {
        Mistake::Name(mistake) => name_explains(alloc, mistake, at, logged),
        Mistake::Hash(mistake) => hash_explains(alloc, mistake, at, logged),
        Mistake::Secret(mistake) => Ok(secret_explains(mistake, at, logged)),
        Mistake::Text(mistake) => text_explains(alloc, mistake, at, logged),
        Mistake::Key(mistake) => key_explains(alloc, mistake, at, logged),
    }
}

/// The mistakes of a step of this kind, in their order.
#[tactic(auto, unfolding(crate::specs::Finding::mistakes_of))]
pub fn mistakes_of(kind: Kind) -> &'static [Row]
    ensures { map said result.now ≡ mistakes_of kind }
{
    match kind {
        Kind::Name => &NAME,
        Kind::Prologue => &PROLOGUE,
        Kind::Data => &DATA,
        Kind::Ephemeral => &EPHEMERAL,
        Kind::Agreement => &AGREEMENT,
        Kind::Secret => &PSK,
        Kind::Text => &TEXT,
        Kind::Opening => &OPENING,
        Kind::Rekeyed => &RENEWAL,
        Kind::Transport => &TRANSPORT,
    }
}
