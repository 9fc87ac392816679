//! What the words of the command line ask for.

ghost use Rattle.std.specs.Prelude.{◌≡◌, ◌≢◌, ◌⊎◌, ◌++◌, ◌∷◌, [], IfOk, IfErr, Some, None, codes, fold, true, false, map, option_map, string_bytes};
ghost use Rattle.clap.specs.Simple.{Shape, new_rule, with_subcommand};
ghost use Rattle.clap.specs.Walk.{Rule};
ghost use Rattle.clap.specs.Words.{all_of, app_of, first_of, found_of, kind_of, rows_of, rule_of, shape_of, subcommand_rows_of};
ghost use Rattle.clap.specs.declared.builder.command.Command.TheViews.{out-Command};
ghost use Rattle.noise_words.specs.CommandLine.{Nothing, asked, compare, explain, flag, noise, optional, order_of, required_rule, rules_for, stated_by, stated_in, subcommand, template, test, trace, wanted_by, words_of};

use crate::choices::{compared, explained, templated, tested, traced, wrong_choice};
use crate::help::{
    ALL, COMPARE, EXPLAIN, FIXES, Flag, HEADING, JSON, OF_PATTERNS, OF_VECTORS, ONLY, ROLE,
    Subcommand, TEMPLATE, TEST, TRACE, TRACES, ValueOption,
};
use crate::orders::{Chosen, LineFault, Order};
use clap::error::ErrorKind;
use clap::{Arg, ArgAction, ArgMatches, Command};
use std::alloc::{AllocError, Global};

/// The command that these words name. The first word is the program's own name.
pub fn chosen(alloc: Global, words: Vec<String>) -> Result<Order, LineFault>
    ensures ok { IfOk result (λ c. asked (map string_bytes words.items) ≡ Some (order_of c)) }
    ensures line { IfErr result (λ fault. (fault ≡ LineFault.Memory) ⊎ (asked (map string_bytes words.items) ≡ None)) }
{
    let mut whole = command(alloc)?;
    stated(alloc, &mut whole, words.as_slice())
}

// The command that these words name, where the command line is the one that is taken.
fn stated<'a>(
    alloc: Global,
    whole: &mut Command<'a>,
    words: &'a [String],
) -> Result<Order, LineFault>
    requires right { app_of whole.old ≡ noise }
    ensures ok { IfOk result (λ c. asked (map string_bytes words.entry.now) ≡ Some (order_of c)) }
    ensures line { IfErr result
        (λ fault. (fault ≡ LineFault.Memory) ⊎ (asked (map string_bytes words.entry.now) ≡ None)) }
{
    match whole.try_get_matches_from_mut(words) {
        Ok(matches) => match order(alloc, &matches)? {
            Some(order) => Ok(order),
            None => Err(LineFault::Line(unstated(alloc, whole, &matches)?)),
        },
        Err(error) => Err(line_fault(error)),
    }
}

// What is wrong where a parse states no order: a wrong value is one of an option of `trace`.
fn unstated(
    alloc: Global,
    whole: &mut Command<'_>,
    matches: &ArgMatches<'_>,
) -> Result<clap::Error, AllocError> {
    match wrong_choice(alloc, matches)? {
        Some(text) => with_options(alloc)?
            .bin_name("noise trace")?
            .error(ErrorKind::InvalidValue, text.as_str()),
        None => whole.error(ErrorKind::MissingRequiredArgument, "a value is missing"),
    }
}

// The command line that is taken.
fn command<'a>(alloc: Global) -> Result<Command<'a>, AllocError>
    ensures { IfOk result (λ c. app_of c ≡ noise) }
{
    let whole = adding(alloc, with_list(alloc)?, &OF_PATTERNS)?;
    let whole = with_template(alloc, with_explain(alloc, whole)?)?;
    let whole = adding(alloc, whole, &OF_VECTORS)?;
    with_compare(alloc, with_trace(alloc, with_test(alloc, whole)?)?)
}

// With the subcommand of patterns that has a flag, too.
fn with_explain<'a>(alloc: Global, whole: Command<'a>) -> Result<Command<'a>, AllocError>
    ensures { IfOk result (λ c. app_of c ≡ with_subcommand (app_of whole.entry) (subcommand explain)) }
{
    with_made(whole, with_fix(alloc))
}

// The subcommand of patterns that has a flag.
fn with_fix<'a>(alloc: Global) -> Result<Command<'a>, AllocError>
    ensures shape { IfOk result (λ c. shape_of c ≡ subcommand explain) }
    ensures local { IfOk result (λ c. (out-Command c).has_globals ≡ false) }
{
    with_argument(with_value(alloc, &EXPLAIN), flag_of(alloc, &FIXES))
}

// With the subcommand that has a second value that may be left out, too.
fn with_template<'a>(alloc: Global, whole: Command<'a>) -> Result<Command<'a>, AllocError>
    ensures { IfOk result (λ c. app_of c ≡ with_subcommand (app_of whole.entry) (subcommand template)) }
{
    with_made(whole, with_keys(alloc))
}

// The subcommand that has a second value that may be left out.
fn with_keys<'a>(alloc: Global) -> Result<Command<'a>, AllocError>
    ensures shape { IfOk result (λ c. shape_of c ≡ subcommand template) }
    ensures local { IfOk result (λ c. (out-Command c).has_globals ≡ false) }
{
    with_argument(with_value(alloc, &TEMPLATE), keys_value(alloc))
}

// Its second value.
fn keys_value<'a>(alloc: Global) -> Arg<'a>
    ensures rule { rule_of result ≡ new_rule (codes "KEYS") }
    ensures local { result.global ≡ false }
{
    Arg::new(alloc, "KEYS").help("A file with values for the placeholders, a line NAME = HEX each")
}

// With the subcommand that has a flag, too.
fn with_test<'a>(alloc: Global, whole: Command<'a>) -> Result<Command<'a>, AllocError>
    ensures { IfOk result (λ c. app_of c ≡ with_subcommand (app_of whole.entry) (subcommand test)) }
{
    with_made(whole, with_flag(alloc))
}

// The subcommand that has a flag.
fn with_flag<'a>(alloc: Global) -> Result<Command<'a>, AllocError>
    ensures shape { IfOk result (λ c. shape_of c ≡ subcommand test) }
    ensures local { IfOk result (λ c. (out-Command c).has_globals ≡ false) }
{
    with_argument(with_value(alloc, &TEST), flag_of(alloc, &TRACES))
}

// The argument of a flag.
fn flag_of<'a>(alloc: Global, given: &Flag<'a>) -> Arg<'a>
    ensures rule { rule_of result ≡ flag given.now.name.now }
    ensures local { result.global ≡ false }
{
    Arg::new(alloc, given.name)
        .long(given.name)
        .action(ArgAction::SetTrue)
        .help(given.meaning)
}

// With the subcommand that has options, too.
fn with_trace<'a>(alloc: Global, whole: Command<'a>) -> Result<Command<'a>, AllocError>
    ensures { IfOk result (λ c. app_of c ≡ with_subcommand (app_of whole.entry) (subcommand trace)) }
{
    with_made(whole, with_options(alloc))
}

// The subcommand that has options and a flag.
fn with_options<'a>(alloc: Global) -> Result<Command<'a>, AllocError>
    ensures shape { IfOk result (λ c. shape_of c ≡ subcommand trace) }
    ensures local { IfOk result (λ c. (out-Command c).has_globals ≡ false) }
{
    let part = with_argument(with_value(alloc, &TRACE), option_of(alloc, &ONLY));
    let role = with_argument(part, option_of(alloc, &ROLE));
    with_argument(role, flag_of(alloc, &HEADING))
}

// With the subcommand that has two values and two flags, too.
fn with_compare<'a>(alloc: Global, whole: Command<'a>) -> Result<Command<'a>, AllocError>
    ensures { IfOk result (λ c. app_of c ≡ with_subcommand (app_of whole.entry) (subcommand compare)) }
{
    with_made(whole, with_two(alloc))
}

// The subcommand that has two values and two flags.
fn with_two<'a>(alloc: Global) -> Result<Command<'a>, AllocError>
    ensures shape { IfOk result (λ c. shape_of c ≡ subcommand compare) }
    ensures local { IfOk result (λ c. (out-Command c).has_globals ≡ false) }
{
    let second = with_argument(with_value(alloc, &COMPARE), second_value(alloc));
    let all = with_argument(second, flag_of(alloc, &ALL));
    with_argument(all, flag_of(alloc, &JSON))
}

// Its second value.
fn second_value<'a>(alloc: Global) -> Arg<'a>
    ensures rule { rule_of result ≡ required_rule (codes "FILE") }
    ensures local { result.global ≡ false }
{
    Arg::new(alloc, "FILE").required(true).help(
        "A vector file as replay takes it, or - for standard input, with keys that are for tests alone",
    )
}

// The argument of an option.
fn option_of<'a>(alloc: Global, option: &ValueOption<'a>) -> Arg<'a>
    ensures rule { (names : _) → rule_of result ≡ optional (option.now.name.now, names) }
    ensures local { result.global ≡ false }
{
    Arg::new(alloc, option.name)
        .long(option.name)
        .value_name(option.value)
        .help(option.meaning)
}

// The command itself, with its subcommand that has no value.
fn with_list<'a>(alloc: Global) -> Result<Command<'a>, AllocError>
    ensures { IfOk result (λ c. app_of c ≡ record noise { subs = subcommand (codes "list", Nothing) ∷ [] }) }
{
    top(alloc)?.subcommand(Command::new(alloc, "list").about(
        "Print the names of the fundamental patterns",
    ))
}

// The command itself.
fn top<'a>(alloc: Global) -> Result<Command<'a>, AllocError>
    ensures { IfOk result (λ c. app_of c ≡ record noise { top = record noise.top { is_leaf = true }; subs = [] }) }
{
    Command::new(alloc, "noise")
        .version("1.0.0")
        .about("Noise handshake patterns, and sessions of two parties that are run on a file")
        .subcommand_required(true)
        .bin_name("noise")
}

// With these subcommands too, each of which has to have a value.
fn adding<'a>(
    alloc: Global,
    whole: Command<'a>,
    subcommands: &[Subcommand<'a>],
) -> Result<Command<'a>, AllocError>
    ensures { IfOk result (λ c. app_of c ≡ fold
        (λ app sub. with_subcommand app (subcommand (sub.name.now, wanted_by sub)))
        (app_of whole.entry) subcommands.now) }
{
    let mut whole = whole;
    for named in subcommands {
        whole = with_made(whole, with_value(alloc, named))?;
    }
    Ok(whole)
}

// With a subcommand too, where memory was enough to make it.
fn with_made<'a>(
    whole: Command<'a>,
    made: Result<Command<'a>, AllocError>,
) -> Result<Command<'a>, AllocError>
    requires { IfOk made (λ sub. (out-Command sub).has_globals ≡ false) }
    ensures { (shape : Shape) → IfOk made.entry (λ sub. shape_of sub ≡ shape)
        → IfOk result (λ c. app_of c ≡ with_subcommand (app_of whole.entry) shape) }
{
    whole.subcommand(made?)
}

// The command of this name, which has to have a value.
fn with_value<'a>(alloc: Global, named: &Subcommand<'a>) -> Result<Command<'a>, AllocError>
    ensures shape { IfOk result (λ c. shape_of c ≡ subcommand (named.now.name.now, wanted_by named.now)) }
    ensures local { IfOk result (λ c. (out-Command c).has_globals ≡ false) }
{
    Command::new(alloc, named.name)
        .about(named.about)
        .after_help(named.example)
        .arg(value_of(alloc, named))
}

// With an argument too, where memory was enough to make it.
fn with_argument<'a>(
    made: Result<Command<'a>, AllocError>,
    arg: Arg<'a>,
) -> Result<Command<'a>, AllocError>
    requires { arg.global ≡ false }
    ensures shape { (shape : Shape) (rule : Rule) → rule_of arg.entry ≡ rule → IfOk made.entry (λ c. shape_of c ≡ shape)
        → IfOk result (λ c. shape_of c ≡ record shape { rules = shape.rules ++ rule ∷ [] }) }
    ensures local { IfOk made.entry (λ c. (out-Command c).has_globals ≡ false)
        → IfOk result (λ c. (out-Command c).has_globals ≡ false) }
{
    made?.arg(arg)
}

// The value of this command.
fn value_of<'a>(alloc: Global, named: &Subcommand<'a>) -> Arg<'a>
    ensures rule { rule_of result ∷ [] ≡ rules_for (wanted_by named.now) }
    ensures local { result.global ≡ false }
{
    let value = Arg::new(alloc, named.value)
        .required(true)
        .help(named.meaning);
    if named.several {
        value.num_args(1..)
    } else {
        value
    }
}

// What a parse found.
fn order(alloc: Global, matches: &ArgMatches<'_>) -> Result<Option<Order>, AllocError>
    ensures { IfOk result (λ found. option_map order_of found ≡ stated_in (subcommand_rows_of matches.now)) }
{
    let Some((name, found)) = matches.subcommand() else {
        return Ok(None);
    };
    if name == "test" {
        return Ok(tested(alloc, found)?.map(Order::Test));
    }
    if name == "explain" {
        return Ok(explained(alloc, found)?.map(Order::Explain));
    }
    if name == "compare" {
        return compared(alloc, found);
    }
    if name == "template" {
        return templated(alloc, found);
    }
    match command_order(alloc, name, found)? {
        Some(command) => Ok(Some(Order::Command(command))),
        None => Ok(None),
    }
}

// The command of this name, with the value that a parse found.
fn command_order(
    alloc: Global,
    name: &str,
    found: &ArgMatches<'_>,
) -> Result<Option<Chosen>, AllocError>
    ensures { (name.now ≡ codes "test" → ⊥) → (name.now ≡ codes "explain" → ⊥) → (name.now ≡ codes "compare" → ⊥)
        → (name.now ≡ codes "template" → ⊥) → IfOk result (λ c. option_map words_of c ≡ stated_by name.now (rows_of (found_of found.now))) }
{
    match name {
        "list" => Ok(Some(Chosen::List)),
        "show" => Ok(value(alloc, found, "NAME")?.map(Chosen::Show)),
        "check" => Ok(value(alloc, found, "FILE")?.map(Chosen::Check)),
        "talk" => Ok(value(alloc, found, "FILE")?.map(Chosen::Talk)),
        "replay" => Ok(value(alloc, found, "FILE")?.map(Chosen::Replay)),
        "convert" => Ok(value(alloc, found, "FILE")?.map(Chosen::Convert)),
        "trace" => Ok(traced(alloc, found)?.map(Chosen::Trace)),
        _ => Ok(None),
    }
}

// The value that a parse found for an argument.
pub(crate) fn value(
    alloc: Global,
    matches: &ArgMatches<'_>,
    id: &str,
) -> Result<Option<String>, AllocError>
    ensures { IfOk result (λ found. option_map string_bytes found ≡ first_of id.now (rows_of (found_of matches.now))) }
{
    match matches.get_str(id) {
        Some(text) => Ok(Some(String::from_str(alloc, text)?)),
        None => Ok(None),
    }
}

// The values that a parse found for an argument.
pub(crate) fn values(
    alloc: Global,
    matches: &ArgMatches<'_>,
    id: &str,
) -> Result<Option<Vec<String>>, AllocError>
    ensures { IfOk result (λ found.
        option_map (λ texts. map string_bytes texts.items) found ≡ all_of id.now (rows_of (found_of matches.now))) }
{
    match matches.get_strs(id) {
        Some(texts) => Ok(Some(strings(alloc, texts)?)),
        None => Ok(None),
    }
}

// A string of each text.
fn strings(alloc: Global, texts: &[&str]) -> Result<Vec<String>, AllocError>
    ensures { IfOk result (λ strings. map string_bytes strings.items ≡ map (λ text. text.now) texts.now) }
{
    let mut strings = Vec::new(alloc);
    for text in texts {
        strings.push(String::from_str(alloc, text)?)?;
    }
    Ok(strings)
}

// Lack of memory is reported as such, whoever met it.
fn line_fault(error: clap::Error) -> LineFault
    ensures { (kind_of error ≡ ErrorKind.OutOfMemory → result ≡ LineFault.Memory)
        × (kind_of error ≢ ErrorKind.OutOfMemory → result ≡ LineFault.Line error) }
{
    if error.kind() == ErrorKind::OutOfMemory {
        LineFault::Memory
    } else {
        LineFault::Line(error)
    }
}
