//! What a vector file gives for a log that is compared.

ghost use Rattle.std.specs.Prelude.{◌≡◌, ◌++◌, IfOk, OnOk};
ghost use Rattle.noise_names.specs.Names.{name_bytes};
ghost use Rattle.noise_tool.specs.FileFacts.{AreFactsOf, if_any, publics_of, results_of, results_with};

use noise_compare::Facts;
use noise_keys::{Keys, Own};
use noise_vectors::{FileKeys, VectorFile};
use std::alloc::{AllocError, Global};

/// The facts of a vector file.
pub(crate) fn facts_of(alloc: Global, file: &VectorFile) -> Result<Facts, AllocError>
    ensures { IfOk result (AreFactsOf file.now) }
{
    let name = name_of(alloc, file)?;
    let prologue = Vec::from_slice(alloc, &file.prologue)?;
    let initiator = publics_of(alloc, &file.initiator)?;
    let responder = publics_of(alloc, &file.responder)?;
    let publics = joined(alloc, &initiator, &responder)?;
    let results = results_between(alloc, file, &initiator, &responder)?;
    let psks = Vec::from_slice(alloc, file.psks.as_slice())?;
    Ok(Facts {
        name,
        prologue,
        publics,
        results,
        psks,
    })
}

fn name_of(alloc: Global, file: &VectorFile) -> Result<Vec<u8>, AllocError>
    ensures { IfOk result (λ v. v.items ≡ name_bytes file.now.protocol) }
{
    let name = file.protocol.write();
    Vec::from_slice(alloc, name.as_slice())
}

// The public keys of a party, as far as the file has them.
#[tactic(auto, unfolding(crate::specs::FileFacts::publics_of))]
fn publics_of(alloc: Global, keys: &FileKeys) -> Result<Vec<[u8; 32]>, AllocError>
    ensures { IfOk result (λ v. v.items ≡ publics_of keys.now) }
{
    let mut publics = Vec::new(alloc);
    push_if_any(keys.public(Own::Ephemeral), &mut publics)?;
    push_if_any(keys.public(Own::Static), &mut publics)?;
    Ok(publics)
}

fn push_if_any(key: Option<[u8; 32]>, keys: &mut Vec<[u8; 32]>) -> Result<(), AllocError>
    ensures { OnOk result (keys.new.items ≡ keys.old.items ++ if_any key) }
{
    if let Some(key) = key {
        keys.push(key)?;
    }
    Ok(())
}

fn joined(
    alloc: Global,
    first: &[[u8; 32]],
    second: &[[u8; 32]],
) -> Result<Vec<[u8; 32]>, AllocError>
    ensures { IfOk result (λ v. v.items ≡ first.now ++ second.now) }
{
    let mut all = Vec::from_slice(alloc, first)?;
    all.extend_from_slice(second)?;
    Ok(all)
}

// What DH gives between the parties, whose public keys these are, as far as the file has it.
fn results_between(
    alloc: Global,
    file: &VectorFile,
    initiator: &[[u8; 32]],
    responder: &[[u8; 32]],
) -> Result<Vec<[u8; 32]>, AllocError>
    ensures { IfOk result (λ v. v.items
        ≡ results_of file.now.initiator responder.now ++ results_of file.now.responder initiator.now) }
{
    let mut results = Vec::new(alloc);
    push_results(&file.initiator, responder, &mut results)?;
    push_results(&file.responder, initiator, &mut results)?;
    Ok(results)
}

// What DH gives for each own key and each public key of the other party, as far as the file has it.
#[tactic(auto, unfolding(crate::specs::FileFacts::results_of))]
fn push_results(
    keys: &FileKeys,
    publics: &[[u8; 32]],
    results: &mut Vec<[u8; 32]>,
) -> Result<(), AllocError>
    ensures { OnOk result (results.new.items ≡ results.old.items ++ results_of keys.now publics.now) }
{
    for key in publics {
        push_results_with(keys, key, results)?;
    }
    Ok(())
}

#[tactic(auto, unfolding(crate::specs::FileFacts::results_with))]
fn push_results_with(
    keys: &FileKeys,
    remote: &[u8; 32],
    results: &mut Vec<[u8; 32]>,
) -> Result<(), AllocError>
    ensures { OnOk result (results.new.items ≡ results.old.items ++ results_with keys.now remote.now) }
{
    push_if_any(keys.agree(Own::Ephemeral, remote), results)?;
    push_if_any(keys.agree(Own::Static, remote), results)?;
    Ok(())
}
