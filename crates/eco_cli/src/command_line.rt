//! Reading the words behind a command.

ghost use Rattle.std.specs.Prelude.{◌≡◌, ◌<◌, ◌||◌, ◌%◌, not, ◌+◌, ℕ, get_or, length, map, take, drop, MatchOption, OnOk, OnErr, string_bytes, codes, List, [], ◌∷◌};
ghost use Rattle.std.specs.List.{list_all, list_any};
ghost use Rattle.std.specs.Option.{option_map};
ghost use Rattle.std.specs.Str.{bytes_eq};
ghost use Rattle.eco_cli.specs.CommandLine.{listed_of, is_listed, options_in, is_value, has_form, suits, is_bad, is_complete, HasReading, IsFirstBad, value_of, output_in};
ghost use Rattle.eco_common.specs.NameBytes.{is_among};

use crate::command_option::{CommandOption, OptionKind};
use crate::value_form::{is_feed_list, is_name_list, is_table};

fn names_option(table: &[CommandOption], word: &str) -> bool
    ensures { result ≡ list_any (λ o. bytes_eq (listed_of o).word word.now) table.now }
{
    table.iter().any(|option| option.word == word)
}

/// Whether an option stands among words that go by pairs.
fn has_option(words: &[String], option: &str) -> bool
    ensures { result ≡ is_among (options_in (map string_bytes words.now)) option.now }
{
    match words {
        [name, _, rest @ ..] => name.as_str() == option || has_option(rest, option),
        [name] => name.as_str() == option,
        [] => false,
    }
}

fn can_be_value(word: &str) -> bool
    ensures { result ≡ is_value word.now }
{
    match word.as_bytes() {
        [] => false,
        [first, ..] => *first != b'-',
    }
}

/// Whether a value of that kind may have this text.
fn can_have(kind: OptionKind, word: &str) -> bool
    ensures { result ≡ has_form kind word.now }
{
    match kind {
        OptionKind::Input { limit: _ } | OptionKind::Text => true,
        OptionKind::Names => is_name_list(word),
        OptionKind::Table => is_table(word),
        OptionKind::Feeds => is_feed_list(word),
    }
}

/// Whether a value has the form that its option asks.
fn suits_option(table: &[CommandOption], option: &str, word: &str) -> bool
    ensures { result ≡ list_all (λ o. not (bytes_eq (listed_of o).word option.now) || has_form (listed_of o).kind word.now) table.now }
{
    table
        .iter()
        .all(|one| one.word != option || can_have(one.kind, word))
}

fn is_bad_option(table: &[CommandOption], before: &[String], word: &str) -> bool
    ensures { result ≡ (not (is_listed (map listed_of table.now) word.now) || is_among (options_in (map string_bytes before.now)) word.now) }
{
    !names_option(table, word) || has_option(before, word)
}

fn is_bad_value(table: &[CommandOption], option: &str, word: &str) -> bool
    ensures { result ≡ (not (is_value word.now) || not (suits (map listed_of table.now) option.now word.now)) }
{
    !can_be_value(word) || !suits_option(table, option, word)
}

fn is_bad_word(table: &[CommandOption], words: &[String], place: usize) -> bool
    requires { place < length words.now }
    ensures { result ≡ is_bad (map listed_of table.now) (map string_bytes words.now) place }
{
    let word = words[place].as_str();
    if place % 2 == 0 {
        is_bad_option(table, &words[..place], word)
    } else {
        is_bad_value(table, words[place - 1].as_str(), word)
    }
}

fn stand_all(table: &[CommandOption], words: &[String]) -> bool
    ensures { result ≡ list_all (λ o. is_among (options_in (map string_bytes words.now)) (listed_of o).word) table.now }
{
    table.iter().all(|option| has_option(words, option.word))
}

fn has_all(table: &[CommandOption], words: &[String]) -> bool
    ensures { result ≡ is_complete (map listed_of table.now) (map string_bytes words.now) }
{
    words.len() % 2 == 0 && stand_all(table, words)
}

/// The first bad word behind a command; their number where an option or a value is missing.
pub fn first_bad(table: &[CommandOption], words: &[String]) -> Option<usize>
    ensures { MatchOption result (HasReading (map listed_of table.now) (map string_bytes words.now)) (λ n. IsFirstBad (map listed_of table.now) (map string_bytes words.now) n) }
{
    for place in 0..words.len() {
        if is_bad_word(table, words, place) {
            return Some(place);
        }
    }
    if has_all(table, words) {
        None
    } else {
        Some(words.len())
    }
}

/// The value behind an option, in words that go by pairs.
pub fn value<'a>(words: &'a [String], option: &str) -> &'a str
    ensures { result.now ≡ value_of (map string_bytes words.now) option.now }
{
    match words {
        [name, value, rest @ ..] => {
            if name.as_str() == option {
                value.as_str()
            } else {
                self::value(rest, option)
            }
        }
        _ => "",
    }
}

/// Whether a command with this table has an output.
fn has_output(table: &[CommandOption]) -> bool
    ensures { result ≡ is_listed (map listed_of table.now) (codes "--out") }
{
    names_option(table, "--out")
}

/// The name of the output, where a command with this table has one.
pub fn output<'a>(table: &[CommandOption], words: &'a [String]) -> Option<&'a str>
    ensures { option_map (λ name. name.now) result ≡ output_in (map listed_of table.now) (map string_bytes words.now) }
{
    if has_output(table) {
        Some(value(words, "--out"))
    } else {
        None
    }
}
