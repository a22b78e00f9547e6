//! Reading what stands at the library level.

ghost use Rattle.std.specs.Prelude.{◌+◌, ◌≤◌, nat_le, length, IsSome, IfOk};
ghost use Rattle.eco_text.specs.Cursor.{token};
ghost use Rattle.eco_common.specs.NameBytes.{is_among};
ghost use Rattle.eco_lef.specs.Parsing.{new_name, word_count};
ghost use Rattle.eco_lef.specs.Known.{names_of};
ghost use Rattle.eco_lef.specs.Grammar.{defined as defined_at, named_block, plain_block, passed_in_library, library_end, statement_under, library_statement_new, masters};
ghost use Rattle.eco_lef.specs.Reading.{Reads, left, as_is};

use crate::fault::LefFault;
use crate::library::Library;
use crate::master::Master;
use crate::reader::Reader;
use crate::statement::LibraryStatement;
use eco_common::{MAX_MASTERS, Name, Size};
use eco_text::Word;

impl<'a> Reader<'a> {
    /// A macro's name, which isn't among those of the library, where there is room for one more.
    fn master_name(&mut self, heading: &[u8], library: &Library) -> Result<Word, LefFault>
        ensures { Reads 1 token (new_name heading.now (is_among (names_of library.now)) (nat_le MAX_MASTERS (length library.now))) self.old.words self.new.words result }
    {
        let known = library.has(self.words.bytes_ahead());
        self.unused_name(heading, known, MAX_MASTERS <= library.len())
    }

    /// A macro, whose name isn't among those of the library, where there is room for one more.
    #[tactic(auto, unfolding(crate::specs::Grammar::defined))]
    fn defined(
        &mut self,
        heading: &[u8],
        library: &Library,
    ) -> Result<Option<LibraryStatement>, LefFault>
        ensures { Reads 1 as_is (defined_at heading.now (is_among (names_of library.now)) (nat_le MAX_MASTERS (length library.now))) self.old.words self.new.words result }
    {
        self.take(heading)?;
        let word = self.master_name(heading, library)?;
        let name = self.words.bytes_of(word);
        let body = self.macro_body(name)?;
        let size = body.size.unwrap_or(Size {
            width: 0,
            height: 0,
        });
        Ok(Some(LibraryStatement::Defined(Master {
            name: Name::of(self.alloc, name)?,
            width: size.width,
            height: size.height,
            pins: body.pins.into_items(),
        })))
    }

    #[tactic(auto, unfolding(crate::specs::Grammar::named_block))]
    fn named_block(&mut self, heading: &[u8]) -> Result<Option<LibraryStatement>, LefFault>
        ensures { Reads 1 as_is (named_block heading.now) self.old.words self.new.words result }
    {
        self.take(heading)?;
        let word = self.name(heading)?;
        let block = self.words.bytes_of(word);
        self.pass_block(block)?;
        Ok(Some(LibraryStatement::Other))
    }

    #[tactic(auto, unfolding(crate::specs::Grammar::plain_block))]
    fn plain_block(&mut self, heading: &[u8]) -> Result<Option<LibraryStatement>, LefFault>
        ensures { Reads 1 as_is (plain_block heading.now) self.old.words self.new.words result }
    {
        self.take(heading)?;
        self.pass_block(heading)?;
        Ok(Some(LibraryStatement::Other))
    }

    #[tactic(auto, unfolding(crate::specs::Grammar::passed_in_library))]
    fn passed_in_library(
        &mut self,
        heading: &[u8],
        keyword: &[u8],
    ) -> Result<Option<LibraryStatement>, LefFault>
        ensures { Reads 1 as_is (passed_in_library heading.now keyword.now) self.old.words self.new.words result }
    {
        self.pass_to(heading, keyword)?;
        Ok(Some(LibraryStatement::Other))
    }

    #[tactic(auto, unfolding(crate::specs::Grammar::library_end))]
    fn library_end(&mut self, heading: &[u8]) -> Result<Option<LibraryStatement>, LefFault>
        ensures { Reads 1 as_is (library_end heading.now) self.old.words self.new.words result }
    {
        if self.block_ends(heading, b"LIBRARY")? {
            return Ok(None);
        }
        Ok(Some(LibraryStatement::Other))
    }

    /// One statement under a heading, and none at the library's end.
    #[tactic(auto, using(crate::proofs::Telling::told), unfolding(crate::specs::Grammar::statement_under))]
    fn statement_under(
        &mut self,
        heading: &[u8],
        library: &Library,
    ) -> Result<Option<LibraryStatement>, LefFault>
        ensures { Reads 1 as_is (statement_under heading.now (is_among (names_of library.now)) (nat_le MAX_MASTERS (length library.now))) self.old.words self.new.words result }
    {
        if self.words.next_is(b"END") {
            return self.library_end(heading);
        }
        if self.words.next_is(b"MACRO") {
            return self.defined(heading, library);
        }
        if self.words.next_is_one_of(&[b"LAYER", b"VIA", b"VIARULE", b"SITE", b"NONDEFAULTRULE"]) {
            return self.named_block(heading);
        }
        if self
            .words
            .next_is_one_of(&[b"UNITS", b"PROPERTYDEFINITIONS", b"SPACING"])
        {
            return self.plain_block(heading);
        }
        if self.words.next_is(b"BEGINEXT") {
            return self.passed_in_library(heading, b"ENDEXT");
        }
        if self.words.next_is(b"ARRAY") {
            return Err(self.array_block(heading));
        }
        self.passed_in_library(heading, b";")
    }

    /// One statement, and none at the end of the library or the text.
    fn library_statement(&mut self, library: &Library) -> Result<Option<LibraryStatement>, LefFault>
        ensures reads { Reads 0 as_is (library_statement_new (is_among (names_of library.now)) (nat_le MAX_MASTERS (length library.now))) self.old.words self.new.words result }
        ensures goes_on { IfOk result (λ o. IsSome o → word_count (left self.new.words) + 1 ≤ word_count (left self.old.words)) }
    {
        match self.words.ahead() {
            Ok(Some(word)) => {
                let heading = self.words.bytes_of(word);
                self.statement_under(heading, library)
            }
            Ok(None) => Ok(None),
            Err(fault) => Err(LefFault::Text(fault)),
        }
    }

    /// The masters of all statements.
    pub fn library(&mut self) -> Result<Library, LefFault>
        ensures { Reads 0 as_is (masters (nat_le MAX_MASTERS)) self.old.words self.new.words result }
    {
        let mut library = Library::new(self.alloc);
        'statements: while let Some(statement) = self.library_statement(&library)? {
            if let LibraryStatement::Defined(master) = statement {
                library = library.with(self.alloc, master)?;
            }
        }
        Ok(library)
    }
}
