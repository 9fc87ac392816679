//! The options of `trace`, whose values are checked here, the flags of `trace`, `test`, `compare` and `explain`, and
//! the files of `compare` and `template`.

ghost use Rattle.std.specs.Prelude.{◌≡◌, IfOk, codes, option_map};
ghost use Rattle.clap.specs.Words.{found_of, rows_of};
ghost use Rattle.noise_words.specs.CommandLine.{choice_in, flag_in, flag_text, named_explain, named_test, named_trace, order_of, part_choice, part_text, role_choice, role_text, stated_by};

use crate::command_line::{value, values};
use crate::help::{ALL, FIXES, HEADING, JSON, ONLY, ROLE, TRACES};
use crate::orders::{
    Chosen, Compared, Documented, Explained, Filled, Order, Tested, Traced, TracedPart, TracedRole,
};
use clap::ArgMatches;
use std::alloc::{AllocError, Global};

/// What is traced, where the matches of `trace` have a file, and no option has a value that it may not have.
pub fn traced(alloc: Global, found: &ArgMatches<'_>) -> Result<Option<Traced>, AllocError>
    ensures { IfOk result (λ t. option_map named_trace t ≡ stated_by (codes "trace") (rows_of (found_of found.now))) }
{
    let Some(only) = part_in(found) else {
        return Ok(None);
    };
    let Some(role) = role_in(found) else {
        return Ok(None);
    };
    let heading = is_given(found, HEADING.name);
    match value(alloc, found, "FILE")? {
        Some(file) => Ok(Some(Traced {
            file,
            only,
            role,
            heading,
        })),
        None => Ok(None),
    }
}

/// What is tested, where the matches of `test` have files.
pub fn tested(alloc: Global, found: &ArgMatches<'_>) -> Result<Option<Tested>, AllocError>
    ensures { IfOk result (λ t. option_map named_test t ≡ stated_by (codes "test") (rows_of (found_of found.now))) }
{
    let traces = is_given(found, TRACES.name);
    match values(alloc, found, "FILE")? {
        Some(files) => Ok(Some(Tested { files, traces })),
        None => Ok(None),
    }
}

/// What is explained, where the matches of `explain` have files.
pub fn explained(alloc: Global, found: &ArgMatches<'_>) -> Result<Option<Explained>, AllocError>
    ensures { IfOk result (λ e. option_map named_explain e
        ≡ stated_by (codes "explain") (rows_of (found_of found.now))) }
{
    let fixes = is_given(found, FIXES.name);
    match values(alloc, found, "FILE")? {
        Some(files) => Ok(Some(Explained { files, fixes })),
        None => Ok(None),
    }
}

/// The order for `compare`, where its matches have a log and a file.
pub fn compared(alloc: Global, found: &ArgMatches<'_>) -> Result<Option<Order>, AllocError>
    ensures { IfOk result (λ o. option_map order_of o ≡ stated_by (codes "compare") (rows_of (found_of found.now))) }
{
    let all = is_given(found, ALL.name);
    let Some(log) = value(alloc, found, "LOG")? else {
        return Ok(None);
    };
    let Some(file) = value(alloc, found, "FILE")? else {
        return Ok(None);
    };
    let compared = Compared { log, file, all };
    if is_given(found, JSON.name) {
        return Ok(Some(Order::Document(Documented::Compare(compared))));
    }
    Ok(Some(Order::Compare(compared)))
}

/// The order for `template`, where its matches have a pattern: with the values of a file, where they have one.
pub fn templated(alloc: Global, found: &ArgMatches<'_>) -> Result<Option<Order>, AllocError>
    ensures { IfOk result (λ o. option_map order_of o ≡ stated_by (codes "template") (rows_of (found_of found.now))) }
{
    let Some(pattern) = value(alloc, found, "NAME|FILE")? else {
        return Ok(None);
    };
    match value(alloc, found, "KEYS")? {
        Some(keys) => Ok(Some(Order::Fill(Filled { pattern, keys }))),
        None => Ok(Some(Order::Command(Chosen::Template(pattern)))),
    }
}

// Whether the flag of this name is given.
fn is_given(found: &ArgMatches<'_>, name: &str) -> bool
    ensures { flag_text result ≡ flag_in (rows_of (found_of found.now)) name.now }
{
    match found.get_str(name) {
        None => false,
        Some("true") => true,
        Some(_) => false,
    }
}

// The part that `--only` names, if it is given, or None where it names no part.
fn part_in(found: &ArgMatches<'_>) -> Option<Option<TracedPart>>
    ensures { option_map (option_map part_text) result ≡ choice_in (rows_of (found_of found.now)) part_choice }
{
    match found.get_str(ONLY.name) {
        None => Some(None),
        Some("handshake") => Some(Some(TracedPart::Handshake)),
        Some("transport") => Some(Some(TracedPart::Transport)),
        Some(_) => None,
    }
}

// The role that `--role` names, if it is given, or None where it names no role.
fn role_in(found: &ArgMatches<'_>) -> Option<Option<TracedRole>>
    ensures { option_map (option_map role_text) result ≡ choice_in (rows_of (found_of found.now)) role_choice }
{
    match found.get_str(ROLE.name) {
        None => Some(None),
        Some("initiator") => Some(Some(TracedRole::Initiator)),
        Some("responder") => Some(Some(TracedRole::Responder)),
        Some(_) => None,
    }
}

/// What is wrong with the value of an option of `trace`, as `clap` says it, where one is wrong.
pub fn wrong_choice(alloc: Global, matches: &ArgMatches<'_>) -> Result<Option<String>, AllocError> {
    let Some((_, found)) = matches.subcommand() else {
        return Ok(None);
    };
    if part_in(found).is_none() {
        return wrong(
            alloc,
            found.get_str(ONLY.name),
            "--only <PART>",
            "handshake, transport",
        );
    }
    if role_in(found).is_none() {
        return wrong(
            alloc,
            found.get_str(ROLE.name),
            "--role <ROLE>",
            "initiator, responder",
        );
    }
    Ok(None)
}

fn wrong(
    alloc: Global,
    given: Option<&str>,
    option: &str,
    values: &str,
) -> Result<Option<String>, AllocError> {
    match given {
        Some(word) => Ok(Some(format!(in alloc;
            "invalid value '{word}' for '{option}'\n  [possible values: {values}]"
        )?)),
        None => Ok(None),
    }
}
