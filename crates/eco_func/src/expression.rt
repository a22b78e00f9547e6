//! Expressions over a master's inputs.

ghost use Rattle.std.specs.Prelude.{◌≡◌, ◌<◌, ◌≤◌, ◌+◌, ◌-◌, ◌^◌, ◌||◌, ◌&&◌, ◌==◌, not, nat_le, ℕ, List, length, IfSome, IfErr, MatchOption, MatchResult, take, Ok, Err, ◌∷◌};
ghost use Rattle.std.specs.Option.{option_or};
ghost use Rattle.std.specs.List.{list_any, position, position_or_len};
ghost use Rattle.std.specs.Str.{byte, bytes_eq};
ghost use Rattle.eco_func.specs.Tables.{bit};
ghost use Rattle.eco_func.specs.Expressions.{Expression, Input, Not, Both, begins_name as begins, goes_on as may_follow, behind_blanks as without_blanks, mark, name as name_of, closed as closes, chain as chain_of, part_of, operand as operand_of, sum, whole, expression_in, applied as apply, input_value, value_at, first_unknown};
ghost use Rattle.eco_func.specs.Parts.{IsPart, Parses, DoesntBegin, IsParse};

use crate::operator::Operator;
use crate::part::Part;
use crate::rows::input_column;
use eco_common::{MAX_EXPRESSION_BYTES, MAX_EXPRESSION_DEPTH, MAX_INPUTS, MAX_ROWS, Name};

fn begins_name(byte: u8) -> bool
    ensures { result ≡ begins byte }
{
    byte.is_ascii_alphabetic() || byte == b'_'
}

/// Whether a name may have the byte after its first.
fn goes_on(byte: u8) -> bool
    ensures { result ≡ may_follow byte }
{
    begins_name(byte) || byte.is_ascii_digit() || byte == b'[' || byte == b']'
}

/// Where a name's further bytes end, if something follows them.
fn name_end(text: &[u8]) -> Option<usize>
    ensures { result ≡ position (λ b. not (may_follow b)) text.now }
{
    text.iter().position(|byte| !goes_on(*byte))
}

/// How many further bytes of a name stand at the beginning.
fn name_len(text: &[u8]) -> usize
    ensures value { result ≡ position_or_len (λ b. not (may_follow b)) text.now }
    ensures within { result ≤ length text.now }
{
    match name_end(text) {
        Some(place) => place,
        None => text.len(),
    }
}

/// The text from its first byte that is no blank.
fn behind_blanks(mut text: &[u8]) -> &[u8]
    ensures rest { result.now ≡ without_blanks text.now }
    ensures shorter { length result.now ≤ length text.now }
{
    while let [b' ', rest @ ..] = text {
        text = rest;
    }
    text
}

/// Which input has the name.
fn input_place(inputs: &[Name], name: &[u8]) -> Option<usize>
    ensures { result ≡ position (λ input. bytes_eq input name.now) inputs.now }
{
    inputs.iter().position(|input| input.is(name))
}

/// The values of the input of a name, and 0 at all rows where there is none.
fn column_of(inputs: &[Name], name: &[u8]) -> u64
    requires { length inputs.now ≤ MAX_INPUTS }
    ensures { (r : ℕ) → r < MAX_ROWS → bit result r ≡ input_value inputs.now r name.now }
{
    match input_place(inputs, name) {
        Some(place) => input_column(place as u8),
        None => 0,
    }
}

fn is_input(inputs: &[Name], name: &[u8]) -> bool
    ensures { result ≡ list_any (λ input. bytes_eq input name.now) inputs.now }
{
    inputs.iter().any(|input| input.is(name))
}

/// What a name gives.
fn named<'a>(inputs: &[Name], name: &'a [u8]) -> Part<'a>
    requires { length inputs.now ≤ MAX_INPUTS }
    ensures { IsPart inputs.now (Input name.now) result }
{
    Part {
        word: column_of(inputs, name),
        unknown: if is_input(inputs, name) {
            None
        } else {
            Some(name)
        },
    }
}

/// A name at the beginning of the text.
fn name<'a>(inputs: &[Name], text: &'a [u8]) -> Result<(Part<'a>, &'a [u8]), &'a [u8]>
    requires { length inputs.now ≤ MAX_INPUTS }
    ensures { Parses inputs.now name_of text.now result }
{
    match text {
        [first, rest @ ..] if begins_name(*first) => {
            let (name, rest) = text.split_at(1 + name_len(rest));
            Ok((named(inputs, name), rest))
        }
        _ => Err(text),
    }
}

/// The other value at each row.
fn turned(word: u64) -> u64
    ensures { (r : ℕ) → r < MAX_ROWS → bit result r ≡ not (bit word r) }
{
    !word
}

/// What `!` makes of a part.
fn negated(inner: Part<'_>) -> Part<'_>
    ensures { (inputs : List (List ℕ)) (e : Expression) → IsPart inputs e inner.entry → IsPart inputs (Not e) result }
{
    Part {
        word: turned(inner.word),
        unknown: inner.unknown,
    }
}

/// The first of two names, where there is one.
fn first_of<'a>(first: Option<&'a [u8]>, second: Option<&'a [u8]>) -> Option<&'a [u8]>
    ensures { result ≡ option_or first.entry second.entry }
{
    match first {
        Some(name) => Some(name),
        None => second,
    }
}

/// What an operator makes of the values at each row.
fn applied(operator: Operator, left: u64, right: u64) -> u64
    ensures { (r : ℕ) → bit result r ≡ apply operator (bit left r) (bit right r) }
{
    match operator {
        Operator::And => left & right,
        Operator::Xor => left ^ right,
        Operator::Or => left | right,
    }
}

/// What an operator makes of two parts.
fn joined<'a>(operator: Operator, left: Part<'a>, right: Part<'a>) -> Part<'a>
    ensures { (inputs : List (List ℕ)) (l r : Expression) → IsPart inputs l left.entry → IsPart inputs r right.entry → IsPart inputs (Both operator l r) result }
{
    Part {
        word: applied(operator, left.word, right.word),
        unknown: first_of(left.unknown, right.unknown),
    }
}

/// What follows a byte at the beginning.
fn behind_byte(byte: u8, text: &[u8]) -> Option<&[u8]>
    ensures { MatchOption result (DoesntBegin byte text.now) (λ rest. text.now ≡ byte ∷ rest.now) }
{
    match text {
        [first, rest @ ..] if *first == byte => Some(rest),
        _ => None,
    }
}

/// What follows an operator at the beginning.
fn behind_mark(operator: Operator, text: &[u8]) -> Option<&[u8]>
    ensures { MatchOption result (DoesntBegin (mark operator) text.now) (λ rest. text.now ≡ mark operator ∷ rest.now) }
{
    match operator {
        Operator::And => behind_byte(b'&', text),
        Operator::Xor => behind_byte(b'^', text),
        Operator::Or => behind_byte(b'|', text),
    }
}

/// A part and the `)` after it.
fn closed<'a>(part: Part<'a>, text: &'a [u8]) -> Result<(Part<'a>, &'a [u8]), &'a [u8]>
    ensures { (inputs : List (List ℕ)) (e : Expression) → IsPart inputs e part.entry → Parses inputs (closes e) text.now result }
{
    match behind_byte(b')', text) {
        Some(rest) => Ok((part, rest)),
        None => Err(text),
    }
}

/// One part of what the operator joins.
#[cycle(parser)]
fn part<'a>(
    inputs: &[Name],
    operator: Operator,
    depth: u32,
    text: &'a [u8],
) -> Result<(Part<'a>, &'a [u8]), &'a [u8]>
    requires { length inputs.now ≤ MAX_INPUTS }
    ensures { Parses inputs.now (part_of operator (operand_of depth)) text.now result }
{
    match operator {
        Operator::And => operand(inputs, depth, text),
        Operator::Xor => chain(inputs, Operator::And, depth, text),
        Operator::Or => chain(inputs, Operator::Xor, depth, text),
    }
}

/// Parts with the operator between them.
#[cycle(parser)]
fn chain<'a>(
    inputs: &[Name],
    operator: Operator,
    depth: u32,
    text: &'a [u8],
) -> Result<(Part<'a>, &'a [u8]), &'a [u8]>
    requires { length inputs.now ≤ MAX_INPUTS }
    ensures { Parses inputs.now (chain_of operator (part_of operator (operand_of depth))) text.now result }
{
    let (mut left, rest) = part(inputs, operator, depth, text)?;
    let mut rest = behind_blanks(rest);
    while let Some(more) = behind_mark(operator, rest) {
        let (right, behind) = part(inputs, operator, depth, more)?;
        left = joined(operator, left, right);
        rest = behind_blanks(behind);
    }
    Ok((left, rest))
}

/// One operand, in which `!` and parentheses nest at most `depth` deep.
#[cycle(parser)]
fn operand<'a>(
    inputs: &[Name],
    depth: u32,
    text: &'a [u8],
) -> Result<(Part<'a>, &'a [u8]), &'a [u8]>
    requires { length inputs.now ≤ MAX_INPUTS }
    ensures { Parses inputs.now (operand_of depth) text.now result }
{
    let text = behind_blanks(text);
    if depth == 0 {
        return name(inputs, text);
    }
    if let Some(rest) = behind_byte(b'!', text) {
        let (inner, rest) = operand(inputs, depth - 1, rest)?;
        return Ok((negated(inner), rest));
    }
    if let Some(rest) = behind_byte(b'(', text) {
        let (inner, rest) = chain(inputs, Operator::Or, depth - 1, rest)?;
        return closed(inner, rest);
    }
    name(inputs, text)
}

/// The bytes that an expression may have.
fn readable(text: &[u8]) -> &[u8]
    ensures value { result.now ≡ take MAX_EXPRESSION_BYTES text.now }
    ensures few { length result.now ≤ MAX_EXPRESSION_BYTES }
{
    if text.len() <= MAX_EXPRESSION_BYTES {
        text
    } else {
        &text[..MAX_EXPRESSION_BYTES]
    }
}

/// An expression in which all is read, or the place of the first byte that can't go on.
pub fn read_expression<'a>(inputs: &[Name], text: &'a [u8]) -> Result<Part<'a>, usize>
    requires { length inputs.now ≤ MAX_INPUTS }
    ensures said { IsParse inputs.now text.now result }
    ensures within { IfErr result (λ place. place ≤ MAX_EXPRESSION_BYTES) }
{
    let readable = readable(text);
    match chain(inputs, Operator::Or, MAX_EXPRESSION_DEPTH, readable) {
        Ok((part, rest)) => {
            if !rest.is_empty() {
                return Err(readable.len() - rest.len());
            }
            if MAX_EXPRESSION_BYTES < text.len() {
                return Err(readable.len());
            }
            Ok(part)
        }
        Err(rest) => Err(readable.len() - rest.len()),
    }
}
