//! The lines that give a party its keys.

ghost use Rattle.std.specs.Prelude.{◌≡◌, ◌≤◌, ◌∷◌, ◌++◌, ℕ, List, Option, IfErr, IfOk, IfSome, IsFalse, IsOk, IsSome, MatchOption, codes, length};
ghost use Rattle.std.specs.Bool.{nat_eq};
ghost use Rattle.std.specs.List.{All, starts_with};
ghost use Rattle.noise_keys.specs.Table.{TableEntry};
ghost use Rattle.noise_vectors.specs.Lines.{last_number};
ghost use Rattle.noise_vectors.specs.VectorFile.{AreKeys, IsEntry};
ghost use Rattle.noise_vectors.specs.WrongLine.{is_answer_line};
ghost use Rattle.noise_vectors.specs.ReaderFaults.{ReportsAfter, ReportsParty, answer_lines};
ghost use Rattle.noise_vectors.specs.Words.{IsKey};
ghost use Rattle.noise_vectors.specs.VectorText.{answer_words, key_words, lines_of, party_text, role_word};

use crate::faults::{LineKind, VectorFault};
use crate::file_keys::FileKeys;
use crate::lines::Lines;
use crate::words::{read_key, read_optional_key, read_own, read_role, split_once};
use noise_keys::{Own, TableKeys, XorKeys};
use noise_names::Role;

/// The line of a party's keys, and after a table's line its DH results.
pub(crate) fn read_party(lines: &mut Lines<'_>, role: Role) -> Result<FileKeys, VectorFault>
    ensures text { IfOk result (λ keys. lines.old.rest.now ≡ party_text role keys lines.new.rest.now) }
    ensures right { IfOk result AreKeys }
    ensures ended { IfOk result (λ keys. IsFalse (is_answer_line keys lines.new.rest.now)) }
    ensures counted { IfOk result (λ keys. last_number lines.new ≡ last_number lines.old) }
    ensures reported { IfErr result (ReportsParty role lines.old.rest.now (last_number lines.old)) }
    ensures every { (keys : FileKeys) (rest : List ℕ) → AreKeys keys
        → IsFalse (starts_with nat_eq rest (codes "answer ")) → lines.old.rest.now ≡ party_text role keys rest
        → IsOk result × (lines.new.rest.now ≡ rest) }
{
    let line = lines.next()?;
    let Some(words) = after_role(line, role) else {
        return Err(lines.fault(LineKind::Keys));
    };
    if let Some((e, s)) = keys_of(words, b"xor ".as_slice()) {
        lines.end()?;
        return Ok(FileKeys::Xor(XorKeys { e, s }));
    }
    let Some((e, s)) = keys_of(words, b"table ".as_slice()) else {
        return Err(lines.fault(LineKind::Keys));
    };
    lines.end()?;
    Ok(FileKeys::Table(read_table(lines, e, s)?))
}

// What follows the word of this role and a space.
fn after_role(line: &[u8], role: Role) -> Option<&[u8]>
    ensures text { IfSome result (λ words. line.now ≡ role_word role ++ 32 ∷ words.now) }
    ensures every { (words : List ℕ) → line.now ≡ role_word role ++ 32 ∷ words
        → MatchOption result (Unit {0} → ⊥) (λ found. found.now ≡ words) }
{
    let (word, words) = split_once(line, b' ')?;
    if read_role(word)? != role {
        return None;
    }
    Some(words)
}

// The two keys after this front.
fn keys_of(words: &[u8], front: &[u8]) -> Option<(Option<[u8; 32]>, Option<[u8; 32]>)>
    ensures text { IfSome result (λ keys. words.now ≡ front.now ++ key_words keys.0 keys.1) }
    ensures right { IfSome result (λ keys. IfSome keys.0 IsKey × IfSome keys.1 IsKey) }
    ensures every { (e s : Option (List ℕ)) → IfSome e IsKey → IfSome s IsKey → words.now ≡ front.now ++ key_words e s
        → IsSome result }
{
    let (e, s) = split_once(words.strip_prefix(front)?, b' ')?;
    Some((read_optional_key(e)?, read_optional_key(s)?))
}

// The table of these keys, with the DH results of the lines that come next.
fn read_table(
    lines: &mut Lines<'_>,
    e: Option<[u8; 32]>,
    s: Option<[u8; 32]>,
) -> Result<TableKeys, VectorFault>
    ensures keys { IfOk result (λ table. (table.e ≡ e) × (table.s ≡ s)) }
    ensures text { IfOk result (λ table. lines.old.rest.now ≡ lines_of answer_words table.entries lines.new.rest.now) }
    ensures right { IfOk result (λ table. (length table.entries ≤ 8) × All IsEntry table.entries) }
    ensures ended { IfOk result (λ table. IsFalse (starts_with nat_eq lines.new.rest.now (codes "answer "))) }
    ensures counted { IfOk result (λ table. last_number lines.new ≡ last_number lines.old) }
    ensures reported { IfErr result (ReportsAfter answer_lines lines.old.rest.now (last_number lines.old)) }
    ensures every { (entries : List TableEntry) (rest : List ℕ) → length entries ≤ 8 → All IsEntry entries
        → IsFalse (starts_with nat_eq rest (codes "answer ")) → lines.old.rest.now ≡ lines_of answer_words entries rest
        → IsOk result × (lines.new.rest.now ≡ rest) }
{
    let mut table = TableKeys::new(e, s);
    while lines.rest.starts_with(b"answer ".as_slice()) {
        let line = lines.next()?;
        let Some(found) = read_answer(line) else {
            return Err(lines.fault(LineKind::Answer));
        };
        let remote = found.1;
        let answer = found.2;
        if table.add(found.0, remote, answer).is_err() {
            return Err(lines.fault(LineKind::Answer));
        }
        lines.end()?;
    }
    Ok(table)
}

// The key pair, the remote public key and the DH result.
fn read_answer(line: &[u8]) -> Option<(Own, [u8; 32], [u8; 32])>
    ensures text { IfSome result
        (λ answer. line.now ≡ answer_words (record { own = answer.0; remote = answer.1; answer = answer.2 })) }
    ensures right { IfSome result (λ answer. IsKey answer.1 × IsKey answer.2) }
    ensures every { (entry : TableEntry) → IsEntry entry → line.now ≡ answer_words entry → IsSome result }
{
    let (own, keys) = split_once(line.strip_prefix(b"answer ".as_slice())?, b' ')?;
    let (remote, answer) = split_once(keys, b' ')?;
    Some((read_own(own)?, read_key(remote)?, read_key(answer)?))
}
