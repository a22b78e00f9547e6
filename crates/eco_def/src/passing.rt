//! Passing over parts that aren't read.

ghost use Rattle.std.specs.Prelude.{◌&&◌, IfOk, codes};
ghost use Rattle.eco_text.specs.Cursor.{token};
ghost use Rattle.eco_text.specs.Tokens.{is_word};
ghost use Rattle.eco_def.specs.Parsing.{pass_to, pass_to_both};
ghost use Rattle.eco_def.specs.Grammar.{passed_section, passed_up_to};
ghost use Rattle.eco_def.specs.Reading.{Reads};
ghost use Rattle.eco_def.specs.Sections.{part_in, IsPassed};

use crate::fault::DefFault;
use crate::part::Part;
use crate::reader::Reader;
use eco_text::Word;

impl<'a> Reader<'a> {
    /// The words up to this one, and that one.
    fn pass_to(&mut self, keyword: &[u8]) -> Result<Word, DefFault>
        ensures { Reads 1 token (pass_to (is_word keyword.now)) self.old.words self.new.words result }
    {
        'words: while self.words.next_is_not(keyword) {
            self.take()?;
        }
        self.word(keyword)
    }

    /// The words up to `END` and this one after it, and those two.
    fn pass_to_end(&mut self, keyword: &[u8]) -> Result<Word, DefFault>
        ensures { Reads 1 token (pass_to_both (is_word (codes "END")) (is_word keyword.now)) self.old.words self.new.words result }
    {
        let mut behind_end = false;
        'words: while !(behind_end && self.words.next_is(keyword)) {
            behind_end = self.words.next_is(b"END");
            self.take()?;
        }
        self.take()
    }

    /// The words up to this one, such as the `;` of a statement.
    pub fn passed_up_to(&mut self, keyword: &[u8]) -> Result<Part, DefFault>
        ensures reads { Reads 1 part_in (passed_up_to keyword.now) self.old.words self.new.words result }
        ensures passed { IfOk result IsPassed }
    {
        self.pass_to(keyword)?;
        Ok(Part::Passed)
    }

    /// A section, up to `END` and the word that it begins with.
    #[tactic(auto, unfolding(crate::specs::Grammar::passed_section))]
    pub fn passed_section(&mut self) -> Result<Part, DefFault>
        ensures reads { Reads 1 part_in passed_section self.old.words self.new.words result }
        ensures passed { IfOk result IsPassed }
    {
        let heading = self.words.bytes_ahead();
        self.take()?;
        self.pass_to_end(heading)?;
        Ok(Part::Passed)
    }
}
