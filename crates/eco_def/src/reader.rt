//! A reader of a design: the words of its text, one ahead, and the faults of a design at the next word.

ghost use Rattle.std.specs.Prelude.{◌≡◌, ◌/◌, ◌≤◌, not, length, Err, IfOk, OnOk, IfErr};
ghost use Rattle.eco_text.specs.Words.{Token, walk_of};
ghost use Rattle.eco_text.specs.Cursor.{token};
ghost use Rattle.eco_text.specs.Numbers.{integer_of};
ghost use Rattle.eco_def.specs.Parsing.{any, refuse, word as word_at, name as name_at, bytes_ahead, valued};
ghost use Rattle.eco_def.specs.declared.fault.DefFault.TheVariants.{BadStatement, TwiceNamed, MustJoin, UnknownHeading, Limit, Memory};
ghost use Rattle.eco_common.specs.KnownNames.{knows, Adds};
ghost use Rattle.eco_def.specs.Reading.{Reads, left, LiesIn, IsAhead, as_is};

use crate::fault::DefFault;
use eco_common::{MAX_DEF_BYTES, Names, add_name};
use eco_text::{TextFault, Word, WordReader, read_i32};

/// A text has about one name in so many bytes.
const BYTES_PER_NAME: usize = 128;

#[derive(Drop)]
pub struct Reader<'a> {
    pub words: WordReader<'a>,
}

impl<'a> Reader<'a> {
    pub fn new(text: &'a [u8]) -> Reader<'a>
        requires { length text.now ≤ MAX_DEF_BYTES }
        ensures text { result.words.text ≡ text.now }
        ensures left { left result.words ≡ walk_of text.now }
    {
        Reader {
            words: WordReader::new(text),
        }
    }

    /// How many names a section is likely to have. More is no harm but memory, and fewer only lets a map of them grow.
    pub fn names_likely(&self) -> usize
        ensures { result ≡ length self.now.words.text / BYTES_PER_NAME }
    {
        self.words.text_len() as usize / BYTES_PER_NAME
    }

    /// Adds the bytes of the next word to the names, and says whether they are new.
    pub fn add_ahead(&self, names: &mut Names<'a>) -> Result<bool, DefFault>
        ensures added { IfOk result (λ b. b ≡ not (knows names.old (bytes_ahead (left self.now.words)))) }
        ensures names { OnOk result (Adds names.old names.new (bytes_ahead (left self.now.words))) }
        ensures memory { IfErr result (λ e. e ≡ Memory) }
    {
        Ok(add_name(names, self.words.bytes_ahead())?)
    }

    /// The fault of a word that can't stand here.
    pub fn bad_statement(&self) -> DefFault
        ensures { refuse {A = Token} BadStatement (left self.now.words) ≡ Err result }
    {
        match self.words.ahead() {
            Ok(Some(word)) => DefFault::BadStatement { place: word.start },
            Ok(None) => DefFault::Unended {
                place: self.words.text_len(),
            },
            Err(TextFault::OpenQuote { place }) => DefFault::Text(TextFault::OpenQuote { place }),
        }
    }

    /// The fault of a name that stands a second time, where there is a next word.
    pub fn twice_named(&self) -> DefFault
        ensures { refuse {A = Token} TwiceNamed (left self.now.words) ≡ Err result }
    {
        match self.words.ahead() {
            Ok(Some(word)) => DefFault::TwiceNamed { place: word.start },
            _ => self.bad_statement(),
        }
    }

    /// The fault of a word that begins nothing at the top level.
    pub fn unknown_heading(&self) -> DefFault
        ensures { refuse {A = Token} UnknownHeading (left self.now.words) ≡ Err result }
    {
        match self.words.ahead() {
            Ok(Some(word)) => DefFault::UnknownHeading { place: word.start },
            _ => self.bad_statement(),
        }
    }

    /// That fault, at a place before the next word.
    pub fn unknown_heading_at(&self, place: u32) -> DefFault
        ensures { refuse {A = Token} (λ _. UnknownHeading place) (left self.now.words) ≡ Err result }
    {
        match self.words.ahead() {
            Ok(Some(_)) => DefFault::UnknownHeading { place },
            _ => self.bad_statement(),
        }
    }

    /// The fault of a `MUSTJOIN`, where there is a next word.
    pub fn must_join(&self) -> DefFault
        ensures { refuse {A = Token} MustJoin (left self.now.words) ≡ Err result }
    {
        match self.words.ahead() {
            Ok(Some(word)) => DefFault::MustJoin { place: word.start },
            _ => self.bad_statement(),
        }
    }

    /// The fault of a word for which there is no room, where there is a next word.
    pub fn limit(&self) -> DefFault
        ensures { refuse {A = Token} Limit (left self.now.words) ≡ Err result }
    {
        match self.words.ahead() {
            Ok(Some(word)) => DefFault::Limit { place: word.start },
            _ => self.bad_statement(),
        }
    }

    /// The next word, whatever it is.
    pub fn take(&mut self) -> Result<Word, DefFault>
        ensures reads { Reads 1 token any self.old.words self.new.words result }
        ensures lies { IfOk result (LiesIn self.old.words.text) }
        ensures ahead { IfOk result (λ w. IsAhead self.old.words self.new.words w) }
    {
        match self.words.take() {
            Ok(Some(word)) => Ok(word),
            Ok(None) => Err(DefFault::Unended {
                place: self.words.text_len(),
            }),
            Err(TextFault::OpenQuote { place }) => {
                Err(DefFault::Text(TextFault::OpenQuote { place }))
            }
        }
    }

    /// The next word, which is to be this one.
    pub fn word(&mut self, keyword: &[u8]) -> Result<Word, DefFault>
        ensures reads { Reads 1 token (word_at keyword.now) self.old.words self.new.words result }
        ensures ahead { IfOk result (λ w. IsAhead self.old.words self.new.words w) }
    {
        if !self.words.next_is(keyword) {
            return Err(self.bad_statement());
        }
        self.take()
    }

    /// A coordinate in database units.
    pub fn integer(&mut self) -> Result<i32, DefFault>
        ensures { Reads 1 as_is (valued integer_of) self.old.words self.new.words result }
    {
        match read_i32(self.words.bytes_ahead()) {
            Ok(number) => {
                self.take()?;
                Ok(number)
            }
            Err(_) => Err(self.bad_statement()),
        }
    }

    /// The next word, which is to be a name.
    pub fn name(&mut self) -> Result<Word, DefFault>
        ensures reads { Reads 1 token name_at self.old.words self.new.words result }
        ensures ahead { IfOk result (λ w. IsAhead self.old.words self.new.words w) }
    {
        if !self.words.next_is_name() {
            return Err(self.bad_statement());
        }
        self.take()
    }
}
