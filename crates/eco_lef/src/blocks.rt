//! Words that are passed over, and the ends of blocks.

ghost use Rattle.eco_text.specs.Cursor.{token};
ghost use Rattle.eco_text.specs.Tokens.{is_word};
ghost use Rattle.eco_lef.specs.Parsing.{pass_to, unused_name};
ghost use Rattle.eco_lef.specs.Grammar.{block_ends, pass_block};
ghost use Rattle.eco_lef.specs.Reading.{Reads, as_is};

use crate::fault::LefFault;
use crate::reader::Reader;
use eco_text::Word;

impl<'a> Reader<'a> {
    /// The words up to this one, and that one.
    pub fn pass_to(&mut self, inside: &[u8], keyword: &[u8]) -> Result<Word, LefFault>
        ensures { Reads 1 token (pass_to inside.now (is_word keyword.now)) self.old.words self.new.words result }
    {
        'words: while self.words.next_is_not(keyword) {
            self.take(inside)?;
        }
        self.word(inside, keyword)
    }

    /// The words up to `END` and the block's name, which stand next to each other, and those two.
    pub fn pass_block(&mut self, block: &[u8]) -> Result<Word, LefFault>
        ensures { Reads 1 token (pass_block block.now) self.old.words self.new.words result }
    {
        self.pass_to(block, b"END")?;
        'ends: while !self.words.next_is(block) {
            self.pass_to(block, b"END")?;
        }
        self.take(block)
    }

    /// Whether an `END` ends the block: its name follows. The word after another `END` is passed over.
    #[tactic(auto, unfolding(crate::specs::Grammar::block_ends))]
    pub fn block_ends(&mut self, inside: &[u8], block: &[u8]) -> Result<bool, LefFault>
        ensures { Reads 1 as_is (block_ends inside.now block.now) self.old.words self.new.words result }
    {
        self.take(inside)?;
        if self.words.next_is(block) {
            self.take(inside)?;
            return Ok(true);
        }
        self.pass_one()?;
        Ok(false)
    }

    /// The next word, which is to be a name that isn't known yet, where there is room for it.
    #[tactic(auto, using(crate::proofs::Telling::told))]
    pub fn unused_name(&mut self, inside: &[u8], known: bool, full: bool) -> Result<Word, LefFault>
        ensures { Reads 1 token (unused_name inside.now known full) self.old.words self.new.words result }
    {
        if !self.words.next_is_name() {
            return Err(self.bad_statement(inside));
        }
        if known {
            return Err(self.twice_named(inside));
        }
        if full {
            return Err(self.too_many_masters(inside));
        }
        self.take(inside)
    }
}
