//! The words of a text, one ahead.

ghost use Rattle.std.specs.Prelude.{◌≡◌, ◌≤◌, not, length, slice_range, IfOk, IfSome};
ghost use Rattle.std.specs.List.{list_any};
ghost use Rattle.eco_text.specs.Words.{walk_of};
ghost use Rattle.eco_text.specs.Cursor.{token};
ghost use Rattle.eco_text.specs.Tokens.{is_word, is_name as is_name_word};
ghost use Rattle.eco_text.specs.Parsing.{begins, bytes_ahead};
ghost use Rattle.eco_text.specs.Reading.{left, LiesIn, TakesWord};

use crate::pieces::between;
use crate::word::{TextFault, Word};
use crate::words::Words;
use eco_common::{MAX_DEF_BYTES, is_mark, is_name};
use std::marker::Model;

/// Goes over the words of a text, and knows the next one.
#[derive(Drop)]
pub struct WordReader<'a> {
    text: &'a [u8],
    words: Words<'a>,
    ahead: Result<Option<Word>, TextFault>,
}

impl<'a> Model for WordReader<'a> {
    ghost use Rattle.eco_text.specs.Reading.{Reading, IsReading};

    ghost Value = { Reading };

    ghost view = { λ r. record { text = r.text.now; ahead = r.ahead; at = r.words.at } };

    ghost invariant = { λ r. IsReading r.text.now r.ahead r.words };
}

fn is_keyword(text: &[u8], word: Word, keyword: &[u8]) -> bool
    requires { LiesIn text.now word }
    ensures { result ≡ is_word keyword.now (token text.now word) }
{
    !word.quoted && &text[word.start as usize..word.end as usize] == keyword
}

fn is_one_of(text: &[u8], word: Word, keywords: &[&[u8]]) -> bool
    requires { LiesIn text.now word }
    ensures { result ≡ list_any (λ k. is_word k.now (token text.now word)) keywords.now }
{
    keywords
        .iter()
        .any(|keyword| is_keyword(text, word, keyword))
}

fn can_name(text: &[u8], word: Word) -> bool
    requires { LiesIn text.now word }
    ensures { result ≡ is_name_word (token text.now word) }
{
    let bytes = &text[word.start as usize..word.end as usize];
    !word.quoted && !is_mark(bytes) && is_name(bytes)
}

impl<'a> WordReader<'a> {
    /// The words of a text of at most `MAX_DEF_BYTES` bytes.
    pub fn new(text: &'a [u8]) -> WordReader<'a>
        requires { length text.now ≤ MAX_DEF_BYTES }
        ensures text { result.text ≡ text.now }
        ensures left { left result ≡ walk_of text.now }
    {
        let mut words = Words::new(text);
        let ahead = words.next_word();
        WordReader { text, words, ahead }
    }

    /// How long the text is. It has at most `MAX_DEF_BYTES` bytes.
    pub fn text_len(&self) -> u32
        ensures { result ≡ length self.now.text }
    {
        self.text.len() as u32
    }

    /// The next word, none at the end of the text, or the fault of a quoted word that doesn't end.
    pub fn ahead(&self) -> Result<Option<Word>, TextFault>
        ensures ahead { result ≡ self.now.ahead }
        ensures lies { IfOk result (λ o. IfSome o (LiesIn self.now.text)) }
    {
        self.ahead
    }

    /// Takes the next word, and none at the end of the text. A quoted word that doesn't end is that fault for good.
    pub fn take(&mut self) -> Result<Option<Word>, TextFault>
        ensures { TakesWord self.old self.new result }
    {
        let taken = self.ahead;
        if let Ok(Some(_)) = taken {
            self.ahead = self.words.next_word();
        }
        taken
    }

    /// The bytes of a word of the text.
    pub fn bytes_of(&self, word: Word) -> &'a [u8]
        ensures { result.now ≡ slice_range self.now.text word.start word.end }
    {
        let text: &'a [u8] = self.text;
        between(text, word.start, word.end)
    }

    /// The bytes of the next word, and none where there is none.
    pub fn bytes_ahead(&self) -> &'a [u8]
        ensures { result.now ≡ bytes_ahead (left self.now) }
    {
        match self.ahead {
            Ok(Some(word)) => self.bytes_of(word),
            _ => &[],
        }
    }

    /// Whether the next word is this one.
    pub fn next_is(&self, keyword: &[u8]) -> bool
        ensures { result ≡ begins (is_word keyword.now) (left self.now) }
    {
        match self.ahead {
            Ok(Some(word)) => is_keyword(self.text, word, keyword),
            _ => false,
        }
    }

    /// Whether there is a next word and it is another one.
    pub fn next_is_not(&self, keyword: &[u8]) -> bool
        ensures { result ≡ begins (λ w. not (is_word keyword.now w)) (left self.now) }
    {
        match self.ahead {
            Ok(Some(word)) => !is_keyword(self.text, word, keyword),
            _ => false,
        }
    }

    /// Whether the next word is one of these.
    pub fn next_is_one_of(&self, keywords: &[&[u8]]) -> bool
        ensures { result ≡ begins (λ w. list_any (λ k. is_word k.now w) keywords.now) (left self.now) }
    {
        match self.ahead {
            Ok(Some(word)) => is_one_of(self.text, word, keywords),
            _ => false,
        }
    }

    /// Whether the next word can be a name.
    pub fn next_is_name(&self) -> bool
        ensures { result ≡ begins is_name_word (left self.now) }
    {
        match self.ahead {
            Ok(Some(word)) => can_name(self.text, word),
            _ => false,
        }
    }
}
