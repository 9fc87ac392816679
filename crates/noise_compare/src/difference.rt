//! Where a log first parts from a key schedule.

ghost use Rattle.std.specs.Prelude.{◌≡◌, ◌≤◌, MatchOption, count_by, drop, find, if◌then◌else◌, length, option_copied};
ghost use Rattle.noise_compare.specs.Differences.{Agrees, IsFirstDifference, IsUnmatched, beside, is_due, is_match, is_of_nonce, is_of_responder, is_step_of, is_whole, nearest, next_step};
ghost use Rattle.noise_compare.specs.Lines.{is_of_place};
ghost use Rattle.noise_compare.specs.Walk.{AreLeftAfter, AreLeftFrom, left_from};

use crate::line::Line;

/// Which of the right lines that are left stands beside a logged one, and matches it if it has its values.
#[derive(Clone, Copy)]
pub enum Rule {
    /// The first of its place.
    InTurn,
    /// The first of its place that has its values: a log may lack those before.
    ByValues,
}

/// The first line of a log that isn't matched.
#[derive(Clone, Copy)]
pub struct Difference<'a, 'b> {
    /// Its index in the log.
    pub index: usize,
    /// From here on the right lines are left that those of its role before it don't have.
    pub left: usize,
    /// The one of them that it is compared with, which has its place and other values; None where there is none.
    pub right: Option<&'a Line<'b>>,
}

/// The first line of a log that these right lines don't match, or None where they agree. A line is matched by a right
/// line of its role, part and name whose bytes, hash, chaining key, key and nonce are the same, or `?` in the log. Right
/// lines that the log lacks are passed over. Where it doesn't agree, and has as many lines of the place as the right
/// ones, none of that place is passed over.
pub fn first_difference<'a, 'b>(
    log: &[Line<'_>],
    right: &'a [Line<'b>],
) -> Option<Difference<'a, 'b>>
    ensures { MatchOption result (Agrees right.now log.now)
        (λ found. IsFirstDifference right.now log.now found.index found.left (option_copied found.right)) }
{
    let Some(by_values) = first_unmatched(Rule::ByValues, log, right) else {
        return None;
    };
    let Some(in_turn) = first_unmatched(Rule::InTurn, log, right) else {
        return None;
    };
    if is_whole(log, right, &log[in_turn.index]) {
        return Some(in_turn);
    }
    Some(by_values)
}

// Whether a log has as many lines of the place of this one as the right lines.
fn is_whole(log: &[Line<'_>], right: &[Line<'_>], line: &Line<'_>) -> bool
    ensures { result ≡ is_whole right.now log.now line.now }
{
    count_of_place(log, line) >= count_of_place(right, line)
}

/// How many of these lines have the place of this one.
pub(crate) fn count_of_place(lines: &[Line<'_>], of: &Line<'_>) -> usize
    ensures { result ≡ count_by (is_of_place of.now) lines.now }
{
    lines.iter().filter(|line| line.is_of_place(of)).count()
}

// The first line of a log that isn't matched, or None where all are.
fn first_unmatched<'a, 'b>(
    rule: Rule,
    log: &[Line<'_>],
    right: &'a [Line<'b>],
) -> Option<Difference<'a, 'b>>
    ensures { MatchOption result (Agrees right.now log.now) (λ found. (line : Line)
        × IsUnmatched rule right.now log.now found.index found.left (option_copied found.right) line) }
{
    let mut initiator = 0;
    let mut responder = 0;
    for (index, line) in log.iter().enumerate() {
        let (of_initiator, of_responder) = match after(rule, right, initiator, responder, line) {
            Ok(places) => places,
            Err(right) => {
                let left = place_for(line, initiator, responder);
                return Some(Difference { index, left, right });
            }
        };
        initiator = of_initiator;
        responder = of_responder;
    }
    None
}

// That of the role of a logged line.
fn place_for(logged: &Line<'_>, initiator: usize, responder: usize) -> usize
    ensures { result ≡ (if is_of_responder logged.now then responder else initiator) }
{
    if is_of_responder(logged) {
        responder
    } else {
        initiator
    }
}

// Where the right lines that are left of each role begin after a logged line, by where they began before it; or the
// right line beside it, if there is one, where it isn't matched.
fn after<'a, 'b>(
    rule: Rule,
    right: &'a [Line<'b>],
    initiator: usize,
    responder: usize,
    logged: &Line<'_>,
) -> Result<(usize, usize), Option<&'a Line<'b>>>
    requires initiator { initiator ≤ length right.now }
    requires responder { responder ≤ length right.now }
    ensures value { AreLeftAfter rule right.now (left_from right.now initiator responder) logged.now result }
{
    if is_of_responder(logged) {
        let next = after_match(rule, right, responder, logged)?;
        return Ok((initiator, next));
    }
    let next = after_match(rule, right, initiator, logged)?;
    Ok((next, responder))
}

#[tactic(auto, unfolding(crate::specs::Differences::is_of_responder))]
fn is_of_responder(logged: &Line<'_>) -> bool
    ensures { result ≡ is_of_responder logged.now }
{
    logged.word(1) == b"responder".as_slice()
}

// From this place on, the place after the right line that is due beside a logged one, where that has its values too; else
// the right line that it is shown beside, if there is one.
fn after_match<'a, 'b>(
    rule: Rule,
    right: &'a [Line<'b>],
    from: usize,
    logged: &Line<'_>,
) -> Result<usize, Option<&'a Line<'b>>>
    requires within { from ≤ length right.now }
    ensures value { AreLeftFrom rule right.now (drop from right.now) logged.now result }
{
    for place in from..right.len() {
        let line = &right[place];
        if is_due(rule, line, logged) {
            if line.has_values(logged) {
                return Ok(place + 1);
            }
            return Err(beside(rule, &right[from..], logged));
        }
    }
    Err(beside(rule, &right[from..], logged))
}

fn is_due(rule: Rule, right: &Line<'_>, logged: &Line<'_>) -> bool
    ensures { result ≡ is_due rule logged.now right.now }
{
    match rule {
        Rule::InTurn => right.is_of_place(logged),
        Rule::ByValues => is_match(right, logged),
    }
}

/// Whether a right line has the place and the values of a logged one.
pub(crate) fn is_match(right: &Line<'_>, logged: &Line<'_>) -> bool
    ensures { result ≡ is_match logged.now right.now }
{
    right.is_of_place(logged) && right.has_values(logged)
}

// The right line that a logged one is compared with, which none matches.
fn beside<'a, 'b>(rule: Rule, right: &'a [Line<'b>], logged: &Line<'_>) -> Option<&'a Line<'b>>
    ensures { option_copied result ≡ beside rule logged.now right.now }
{
    match rule {
        Rule::InTurn => first_of_place(right, logged),
        Rule::ByValues => nearest(right, logged),
    }
}

// The first of its place and nonce, or else of its place.
fn nearest<'a, 'b>(right: &'a [Line<'b>], logged: &Line<'_>) -> Option<&'a Line<'b>>
    ensures { option_copied result ≡ nearest logged.now right.now }
{
    match first_of_nonce(right, logged) {
        Some(line) => Some(line),
        None => first_of_place(right, logged),
    }
}

fn first_of_nonce<'a, 'b>(right: &'a [Line<'b>], logged: &Line<'_>) -> Option<&'a Line<'b>>
    ensures { option_copied result ≡ find (is_of_nonce logged.now) right.now }
{
    right.iter().find(|line| is_of_nonce(line, logged))
}

fn is_of_nonce(right: &Line<'_>, logged: &Line<'_>) -> bool
    ensures { result ≡ is_of_nonce logged.now right.now }
{
    right.is_of_place(logged) && right.is_same(logged, 11)
}

fn first_of_place<'a, 'b>(right: &'a [Line<'b>], logged: &Line<'_>) -> Option<&'a Line<'b>>
    ensures { option_copied result ≡ find (is_of_place logged.now) right.now }
{
    right.iter().find(|line| line.is_of_place(logged))
}

/// The next right line of the handshake, of the same role, after the one that matches this logged line.
pub fn next_step<'a, 'b>(right: &'a [Line<'b>], logged: &Line<'_>) -> Option<&'a Line<'b>>
    ensures { option_copied result ≡ next_step right.now logged.now }
{
    match after_match(Rule::ByValues, right, 0, logged) {
        Ok(next) => first_step(&right[next..], logged),
        Err(_) => None,
    }
}
// The first line of the handshake of the role of a logged line.
fn first_step<'a, 'b>(right: &'a [Line<'b>], logged: &Line<'_>) -> Option<&'a Line<'b>>
    ensures { option_copied result ≡ find (is_step_of logged.now) right.now }
{
    right.iter().find(|line| is_step_of(line, logged))
}

#[tactic(auto, unfolding(crate::specs::Differences::is_step_of))]
fn is_step_of(right: &Line<'_>, logged: &Line<'_>) -> bool
    ensures { result ≡ is_step_of logged.now right.now }
{
    right.word(1) == logged.word(1)
        && right.word(2) != b"open".as_slice()
        && right.word(2) != b"transport".as_slice()
        && right.word(2) != b"datagrams".as_slice()
}
