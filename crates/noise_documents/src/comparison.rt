//! What is said of a log that is compared, in a document.

ghost use Rattle.std.specs.Prelude.{◌≡◌, ◌++◌, ◌<◌, IfOk, length, option_copied};
ghost use Rattle.noise_compare.specs.Differences.{IsFirstDifference};
ghost use Rattle.noise_compare.specs.declared.comparison.Finding.TheVariants.{Differs};
ghost use Rattle.noise_json.specs.Json.{data_of, items_in, members_in};
ghost use Rattle.noise_documents.specs.Comparison.{AreFactsOf, IsFindingOf, agrees_facts, difference_data, differs_facts, line_data, named_facts, place_facts, refused_facts, right_data, value_data, values_data};

use noise_compare::{Difference, Finding, Line, first_difference};
use noise_json::{Array, Json, Object};
use std::alloc::{AllocError, Global};

/// The facts of a comparison, with the names of the log and of the vector file.
#[tactic(auto, unfolding(crate::specs::Comparison::named_facts))]
pub fn named_facts(
    alloc: Global,
    log: &str,
    file: &str,
    facts: Object,
) -> Result<Object, AllocError>
    ensures { IfOk result (λ all. members_in all ≡ named_facts log.now file.now (members_in facts)) }
{
    facts
        .with(alloc, "log", Json::string(alloc, log)?)?
        .with(alloc, "file", Json::string(alloc, file)?)
}

/// What was found of a log by these right lines: how many lines agree, or the first that differs.
pub fn found_facts(
    alloc: Global,
    finding: Finding,
    log: &[Line<'_>],
    right: &[Line<'_>],
) -> Result<Object, AllocError>
    requires found { IsFindingOf finding right.now log.now }
    ensures facts { IfOk result (λ facts. AreFactsOf finding right.now log.now (members_in facts)) }
{
    match finding {
        Finding::Agrees => agrees_facts(alloc, "agrees", log.len()),
        Finding::Ends => agrees_facts(alloc, "ends", log.len()),
        Finding::Differs => match first_difference(log, right) {
            Some(found) => differing_facts(alloc, log, right, &found),
            None => agrees_facts(alloc, "agrees", log.len()),
        },
    }
}

/// That nothing is compared.
#[tactic(auto, unfolding(crate::specs::Comparison::refused_facts))]
pub fn refused_facts(alloc: Global) -> Result<Object, AllocError>
    ensures { IfOk result (λ facts. members_in facts ≡ refused_facts) }
{
    Object::new(alloc).with(alloc, "finding", Json::string(alloc, "refused")?)
}

// Of a log whose first difference this is.
fn differing_facts(
    alloc: Global,
    log: &[Line<'_>],
    right: &[Line<'_>],
    found: &Difference<'_, '_>,
) -> Result<Object, AllocError>
    requires index { found.now.index < length log.now }
    requires first { IsFirstDifference right.now log.now found.now.index found.now.left
        (option_copied found.now.right) }
    ensures { IfOk result (λ facts. AreFactsOf Differs right.now log.now (members_in facts)) }
{
    differs_facts(alloc, &log[found.index], found.right)
}

// How many lines agree.
#[tactic(auto, unfolding(crate::specs::Comparison::agrees_facts))]
fn agrees_facts(alloc: Global, finding: &str, lines: usize) -> Result<Object, AllocError>
    ensures { IfOk result (λ facts. members_in facts ≡ agrees_facts finding.now lines) }
{
    Object::new(alloc)
        .with(alloc, "finding", Json::string(alloc, finding)?)?
        .with(alloc, "lines", Json::number(lines as u64))
}

#[tactic(auto, unfolding(crate::specs::Comparison::differs_facts))]
fn differs_facts(
    alloc: Global,
    line: &Line<'_>,
    expected: Option<&Line<'_>>,
) -> Result<Object, AllocError>
    ensures { IfOk result (λ facts. members_in facts ≡ differs_facts line.now (option_copied expected.entry)) }
{
    let values = right_values(alloc, line, expected)?.into_json();
    Object::new(alloc)
        .with(alloc, "finding", Json::string(alloc, "differs")?)?
        .with(alloc, "line", line_json(alloc, line)?)?
        .with(alloc, "values", values)
}

// Where a line stands.
#[tactic(auto, unfolding(crate::specs::Comparison::place_facts))]
fn with_place(alloc: Global, facts: Object, line: &Line<'_>) -> Result<Object, AllocError>
    ensures { IfOk result (λ all. members_in all ≡ place_facts line.now (members_in facts)) }
{
    facts
        .with(alloc, "role", Json::bytes(alloc, line.word(1))?)?
        .with(alloc, "part", Json::bytes(alloc, line.word(2))?)?
        .with(alloc, "step", Json::bytes(alloc, line.word(4))?)
}

#[tactic(auto, unfolding(crate::specs::Comparison::line_data))]
fn line_json(alloc: Global, line: &Line<'_>) -> Result<Json, AllocError>
    ensures { IfOk result (λ json. data_of json ≡ line_data line.now) }
{
    let numbered = Object::new(alloc).with(alloc, "number", Json::number(line.number as u64))?;
    Ok(with_place(alloc, numbered, line)?.into_json())
}

// The values of a line that differ from those of the right one, if there is one.
fn right_values(
    alloc: Global,
    logged: &Line<'_>,
    right: Option<&Line<'_>>,
) -> Result<Array, AllocError>
    ensures { IfOk result (λ values. items_in values ≡ right_data logged.now (option_copied right.entry)) }
{
    match right {
        Some(right) => values(alloc, logged, right),
        None => Ok(Array::new(alloc)),
    }
}

fn values(alloc: Global, logged: &Line<'_>, right: &Line<'_>) -> Result<Array, AllocError>
    ensures { IfOk result (λ values. items_in values ≡ values_data logged.now right.now) }
{
    let values = with_value(alloc, Array::new(alloc), "bytes", 7, logged, right)?;
    let values = with_value(alloc, values, "hash", 8, logged, right)?;
    let values = with_value(alloc, values, "chaining-key", 9, logged, right)?;
    let values = with_value(alloc, values, "key", 10, logged, right)?;
    with_value(alloc, values, "nonce", 11, logged, right)
}

// With the value of this name, if it differs.
#[tactic(auto, unfolding(crate::specs::Comparison::value_data))]
fn with_value(
    alloc: Global,
    values: Array,
    name: &str,
    place: usize,
    logged: &Line<'_>,
    right: &Line<'_>,
) -> Result<Array, AllocError>
    ensures { IfOk result (λ all. items_in all
        ≡ items_in values ++ value_data name.now place logged.now right.now) }
{
    if right.is_same(logged, place) {
        return Ok(values);
    }
    values.with(difference_json(alloc, name, right.word(place), logged.word(place))?)
}

#[tactic(auto, unfolding(crate::specs::Comparison::difference_data))]
fn difference_json(
    alloc: Global,
    name: &str,
    right: &[u8],
    yours: &[u8],
) -> Result<Json, AllocError>
    ensures { IfOk result (λ json. data_of json ≡ difference_data name.now right.now yours.now) }
{
    let object = Object::new(alloc)
        .with(alloc, "value", Json::string(alloc, name)?)?
        .with(alloc, "right", Json::bytes(alloc, right)?)?
        .with(alloc, "yours", Json::bytes(alloc, yours)?)?;
    Ok(object.into_json())
}
