//! A reader of a library: the words of its text, one ahead, and the faults of a library at the next word.

ghost use Rattle.std.specs.Prelude.{◌≡◌, ◌≤◌, length};
ghost use Rattle.eco_text.specs.Words.{walk_of};
ghost use Rattle.eco_text.specs.Cursor.{token};
ghost use Rattle.eco_text.specs.Numbers.{microns_of};
ghost use Rattle.eco_lef.specs.declared.fault.LefFault.TheVariants.{Unended, BadStatement, TwiceNamed, TooManyMasters, ArrayBlock};
ghost use Rattle.eco_lef.specs.Parsing.{any, pass_one as one_passed, fault_at, word as word_at, name as name_at, valued};
ghost use Rattle.eco_lef.specs.Reading.{Reads, Tells, left, as_is};

use crate::fault::LefFault;
use eco_common::{MAX_DEF_BYTES, Name};
use eco_text::{Word, WordReader, read_microns};
use std::alloc::Global;

#[derive(Drop)]
pub struct Reader<'a> {
    pub alloc: Global,
    pub words: WordReader<'a>,
}

impl<'a> Reader<'a> {
    pub fn new(alloc: Global, text: &'a [u8]) -> Reader<'a>
        requires { length text.now ≤ MAX_DEF_BYTES }
        ensures text { result.words.text ≡ text.now }
        ensures left { left result.words ≡ walk_of text.now }
    {
        Reader {
            alloc,
            words: WordReader::new(text),
        }
    }

    /// The fault of a text that ends within a block of this name.
    pub fn unended(&self, inside: &[u8]) -> LefFault
        ensures { Tells (Unended inside.now) result }
    {
        match Name::of(self.alloc, inside) {
            Ok(name) => LefFault::Unended { name },
            Err(_) => LefFault::Memory,
        }
    }

    /// The fault of a word that can't stand here.
    pub fn bad_statement(&self, inside: &[u8]) -> LefFault
        ensures { Tells (fault_at inside.now BadStatement (left self.now.words)) result }
    {
        match self.words.ahead() {
            Ok(Some(word)) => LefFault::BadStatement { place: word.start },
            Ok(None) => self.unended(inside),
            Err(fault) => LefFault::Text(fault),
        }
    }

    /// The fault of a name that stands a second time.
    pub fn twice_named(&self, inside: &[u8]) -> LefFault
        ensures { Tells (fault_at inside.now TwiceNamed (left self.now.words)) result }
    {
        match self.words.ahead() {
            Ok(Some(word)) => LefFault::TwiceNamed { place: word.start },
            _ => self.bad_statement(inside),
        }
    }

    /// The fault of a macro's name for which there is no room.
    pub fn too_many_masters(&self, inside: &[u8]) -> LefFault
        ensures { Tells (fault_at inside.now TooManyMasters (left self.now.words)) result }
    {
        match self.words.ahead() {
            Ok(Some(word)) => LefFault::TooManyMasters { place: word.start },
            _ => self.bad_statement(inside),
        }
    }

    /// The fault of an `ARRAY`.
    pub fn array_block(&self, inside: &[u8]) -> LefFault
        ensures { Tells (fault_at inside.now ArrayBlock (left self.now.words)) result }
    {
        match self.words.ahead() {
            Ok(Some(word)) => LefFault::ArrayBlock { place: word.start },
            _ => self.bad_statement(inside),
        }
    }

    /// The next word, whatever it is.
    #[tactic(auto, using(crate::proofs::Telling::told))]
    pub fn take(&mut self, inside: &[u8]) -> Result<Word, LefFault>
        ensures { Reads 1 token (any inside.now) self.old.words self.new.words result }
    {
        match self.words.take() {
            Ok(Some(word)) => Ok(word),
            Ok(None) => Err(self.unended(inside)),
            Err(fault) => Err(LefFault::Text(fault)),
        }
    }

    /// One word, if there is one.
    pub fn pass_one(&mut self) -> Result<(), LefFault>
        ensures { Reads 0 as_is one_passed self.old.words self.new.words result }
    {
        match self.words.take() {
            Ok(_) => Ok(()),
            Err(fault) => Err(LefFault::Text(fault)),
        }
    }

    /// The next word, which is to be this one.
    #[tactic(auto, using(crate::proofs::Telling::told))]
    pub fn word(&mut self, inside: &[u8], keyword: &[u8]) -> Result<Word, LefFault>
        ensures { Reads 1 token (word_at inside.now keyword.now) self.old.words self.new.words result }
    {
        if !self.words.next_is(keyword) {
            return Err(self.bad_statement(inside));
        }
        self.take(inside)
    }

    /// The next word, which is to be a name.
    #[tactic(auto, using(crate::proofs::Telling::told))]
    pub fn name(&mut self, inside: &[u8]) -> Result<Word, LefFault>
        ensures { Reads 1 token (name_at inside.now) self.old.words self.new.words result }
    {
        if !self.words.next_is_name() {
            return Err(self.bad_statement(inside));
        }
        self.take(inside)
    }

    /// A length in millionths of a micron.
    #[tactic(auto, using(crate::proofs::Telling::told))]
    pub fn microns(&mut self, inside: &[u8]) -> Result<u64, LefFault>
        ensures { Reads 1 as_is (valued inside.now microns_of) self.old.words self.new.words result }
    {
        match read_microns(self.words.bytes_ahead()) {
            Ok(length) => {
                self.take(inside)?;
                Ok(length)
            }
            Err(_) => Err(self.bad_statement(inside)),
        }
    }
}
