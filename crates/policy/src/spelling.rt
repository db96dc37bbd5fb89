// The rule that a line spells.
ghost use Rattle.std.specs.Prelude.{◌≡◌, ◌==◌, ◌<◌, IfOk, IfSome, length, position};
ghost use Rattle.std.specs.List.{list_all};
ghost use Rattle.std.specs.Option.{option_map};
ghost use Rattle.policy.specs.Lines.{words_of};
ghost use Rattle.policy.specs.Rules.{is_state, is_state_byte};
ghost use Rattle.policy.specs.Reading.{after_word, first_state, bounds_of, parameter_of, range_of, first_range, ranges_of, limit_from, count_from, target_of, ending_of, beginning_of, rule_of};
ghost use Rattle.policy.specs.SpelledView.{view_spelled, view_beginning};

use crate::argument::ArgRange;
use crate::decimal::{bound, count};
use crate::line::first_word;
use std::alloc::{AllocError, Global};

/// A rule as a line spells it: in the state `from` it allows calls of the function of this name,
/// whose arguments are in these ranges, and at most so often; then the state is `to`.
#[derive(Drop)]
pub(crate) struct SpelledRule<'a> {
    pub from: &'a [u8],
    pub function: &'a [u8],
    pub ranges: Vec<ArgRange>,
    pub most: Option<u32>,
    pub to: &'a [u8],
}

// The state and the function that begin a rule, and what follows them.
#[derive(Clone, Copy)]
struct Beginning<'a> {
    from: &'a [u8],
    function: &'a [u8],
    rest: &'a [u8],
}

/// The rule that the words of the line spell, if they spell one.
#[tactic(auto, unfolding(crate::specs::Reading::rule_of))]
pub(crate) fn spelled_rule(
    alloc: Global,
    line: &[u8],
) -> Result<Option<SpelledRule<'_>>, AllocError>
    ensures { IfOk result (λ o. option_map view_spelled o ≡ rule_of (words_of line.now)) }
{
    let Some(start) = rule_beginning(line) else {
        return Ok(None);
    };
    let (ranges, rest) = leading_ranges(alloc, start.rest)?;
    let Some((most, to)) = ending(rest) else {
        return Ok(None);
    };
    Ok(Some(SpelledRule {
        from: start.from,
        function: start.function,
        ranges,
        most,
        to,
    }))
}

// `from STATE allow FUNCTION`
fn rule_beginning(line: &[u8]) -> Option<Beginning<'_>>
    ensures { option_map view_beginning result ≡ beginning_of (words_of line.now) }
{
    let (from, rest) = first_state(after_word(line, b"from")?)?;
    let (function, rest) = first_word(after_word(rest, b"allow")?)?;
    Some(Beginning {
        from,
        function,
        rest,
    })
}

// `argI in LOW..HIGH`, as often as it comes, and what follows it
fn leading_ranges(alloc: Global, line: &[u8]) -> Result<(Vec<ArgRange>, &[u8]), AllocError>
    ensures { IfOk result (λ p. ranges_of (words_of line.now) ≡ (p.0.items, words_of p.1.now)) }
{
    let mut ranges = Vec::new(alloc);
    let mut rest = line;
    while let Some((range, others)) = first_range(rest) {
        ranges.push(range)?;
        rest = others;
    }
    Ok((ranges, rest))
}

// `argI in LOW..HIGH`, and what follows it
fn first_range(line: &[u8]) -> Option<(ArgRange, &[u8])>
    ensures range { option_map (λ p. (p.0, words_of p.1.now)) result ≡ first_range (words_of line.now) }
    ensures shorter { IfSome result (λ p. length p.1.now < length line.now) }
{
    let (first, rest) = first_word(line)?;
    let (second, rest) = first_word(rest)?;
    let (third, rest) = first_word(rest)?;
    Some((range(first, second, third)?, rest))
}

fn range(first: &[u8], second: &[u8], third: &[u8]) -> Option<ArgRange>
    ensures { result ≡ range_of first.now second.now third.now }
{
    if second != b"in".as_slice() {
        return None;
    }
    let parameter = parameter(first)?;
    let (low, high) = bounds(third)?;
    Some(ArgRange {
        parameter,
        low,
        high,
    })
}

// The place of the parameter that the word names.
fn parameter(word: &[u8]) -> Option<u8>
    ensures { result ≡ parameter_of word.now }
{
    match word {
        [b'a', b'r', b'g', digit @ b'1'..=b'8'] => Some(*digit - b'1'),
        _ => None,
    }
}

// `LOW..HIGH`
fn bounds(word: &[u8]) -> Option<(i128, i128)>
    ensures { result ≡ bounds_of word.now }
{
    let dot = first_dot(word)?;
    if dot + 1 == word.len() || word[dot + 1] != b'.' {
        return None;
    }
    let low = bound(&word[..dot])?;
    let high = bound(&word[dot + 2..])?;
    Some((low, high))
}

fn first_dot(word: &[u8]) -> Option<usize>
    ensures dot { result ≡ position (λ b. b == 46) word.now }
    ensures within { IfSome result (λ n. n < length word.now) }
{
    word.iter().position(|byte| *byte == b'.')
}

// `[at most COUNT] to STATE`, and then nothing
fn ending(line: &[u8]) -> Option<(Option<u32>, &[u8])>
    ensures { option_map (λ p. (p.0, p.1.now)) result ≡ ending_of (words_of line.now) }
{
    let (most, rest) = limit(line)?;
    Some((most, target(rest)?))
}

fn limit(line: &[u8]) -> Option<(Option<u32>, &[u8])>
    ensures { option_map (λ p. (p.0, words_of p.1.now)) result ≡ limit_from (words_of line.now) }
{
    let Some(rest) = after_word(line, b"at") else {
        return Some((None, line));
    };
    let (most, rest) = first_count(after_word(rest, b"most")?)?;
    Some((Some(most), rest))
}

fn first_count(line: &[u8]) -> Option<(u32, &[u8])>
    ensures { option_map (λ p. (p.0, words_of p.1.now)) result ≡ count_from (words_of line.now) }
{
    let (word, rest) = first_word(line)?;
    Some((count(word)?, rest))
}

// `to STATE`, and then nothing
fn target(line: &[u8]) -> Option<&[u8]>
    ensures { option_map (λ w. w.now) result ≡ target_of (words_of line.now) }
{
    let (to, rest) = first_state(after_word(line, b"to")?)?;
    if first_word(rest).is_none() {
        Some(to)
    } else {
        None
    }
}

// What follows the word, if the line begins with it.
fn after_word<'a>(line: &'a [u8], word: &[u8]) -> Option<&'a [u8]>
    ensures words { option_map (λ r. words_of r.now) result ≡ after_word word.now (words_of line.now) }
{
    let (first, rest) = first_word(line)?;
    if first == word { Some(rest) } else { None }
}

// The state that begins the line, and what follows it.
fn first_state(line: &[u8]) -> Option<(&[u8], &[u8])>
    ensures { option_map (λ p. (p.0.now, words_of p.1.now)) result ≡ first_state (words_of line.now) }
{
    let (word, rest) = first_word(line)?;
    if is_state(word) {
        Some((word, rest))
    } else {
        None
    }
}

// Whether these are letters, digits and `_`, 1 to 64 in all.
fn is_state(word: &[u8]) -> bool
    ensures { result ≡ is_state word.now }
{
    match word.len() {
        1..=64 => are_state_bytes(word),
        _ => false,
    }
}

fn are_state_bytes(word: &[u8]) -> bool
    ensures { result ≡ list_all is_state_byte word.now }
{
    word.iter().all(|byte| is_state_byte(*byte))
}

fn is_state_byte(byte: u8) -> bool
    ensures { result ≡ is_state_byte byte }
{
    byte.is_ascii_alphanumeric() || byte == b'_'
}
