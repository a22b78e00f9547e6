//! Reading the statements of a macro.

ghost use Rattle.std.specs.Prelude.{◌≡◌, false, IfOk};
ghost use Rattle.eco_text.specs.Cursor.{token};
ghost use Rattle.eco_common.specs.NameBytes.{is_among};
ghost use Rattle.eco_lef.specs.Parsing.{new_name};
ghost use Rattle.eco_lef.specs.Grammar.{size, pin, passed_in_macro, macro_end, macro_statement_new, macro_body};
ghost use Rattle.eco_lef.specs.Known.{pin_names};
ghost use Rattle.eco_lef.specs.Collected.{also_in_macro};
ghost use Rattle.eco_lef.specs.Reading.{Reads, as_is};

use crate::fault::LefFault;
use crate::master::MasterPin;
use crate::pin_list::PinList;
use crate::reader::Reader;
use crate::statement::MacroStatement;
use eco_common::{Dir, Name, Size};
use eco_text::Word;
use std::alloc::{AllocError, Global};

/// What the statements of a macro have said so far.
#[derive(Drop)]
pub struct MacroBody {
    pub size: Option<Size>,
    pub pins: PinList,
}

impl MacroBody {
    /// The same with one more statement. The first size counts.
    fn with(self, alloc: Global, statement: MacroStatement) -> Result<MacroBody, AllocError>
        ensures { IfOk result (λ body. body ≡ also_in_macro self statement) }
    {
        let MacroBody { size, pins } = self;
        match statement {
            MacroStatement::Sized(said) => Ok(MacroBody {
                size: size.or(Some(said)),
                pins,
            }),
            MacroStatement::Pinned(pin) => Ok(MacroBody {
                size,
                pins: pins.with(alloc, pin)?,
            }),
            MacroStatement::Other => Ok(MacroBody { size, pins }),
        }
    }
}

impl<'a> Reader<'a> {
    #[tactic(auto, unfolding(crate::specs::Grammar::size))]
    fn size(&mut self, inside: &[u8]) -> Result<Option<MacroStatement>, LefFault>
        ensures { Reads 1 as_is (size inside.now) self.old.words self.new.words result }
    {
        self.take(inside)?;
        let width = self.microns(inside)?;
        self.word(inside, b"BY")?;
        let height = self.microns(inside)?;
        self.word(inside, b";")?;
        Ok(Some(MacroStatement::Sized(Size { width, height })))
    }

    /// A pin's name, which isn't among those of these pins.
    fn pin_name(&mut self, inside: &[u8], pins: &PinList) -> Result<Word, LefFault>
        ensures { Reads 1 token (new_name inside.now (is_among (pin_names pins.now)) false) self.old.words self.new.words result }
    {
        let known = pins.has(self.words.bytes_ahead());
        self.unused_name(inside, known, false)
    }

    /// A pin, whose name isn't among those of these pins.
    #[tactic(auto, unfolding(crate::specs::Grammar::pin))]
    fn pin(&mut self, inside: &[u8], pins: &PinList) -> Result<Option<MacroStatement>, LefFault>
        ensures { Reads 1 as_is (pin inside.now (is_among (pin_names pins.now))) self.old.words self.new.words result }
    {
        self.take(inside)?;
        let word = self.pin_name(inside, pins)?;
        let name = self.words.bytes_of(word);
        let body = self.pin_body(name)?;
        Ok(Some(MacroStatement::Pinned(MasterPin {
            name: Name::of(self.alloc, name)?,
            dir: body.dir.unwrap_or(Dir::Inout),
            supply: body.supply.unwrap_or(false),
        })))
    }

    #[tactic(auto, unfolding(crate::specs::Grammar::passed_in_macro))]
    fn passed_in_macro(
        &mut self,
        inside: &[u8],
        keyword: &[u8],
    ) -> Result<Option<MacroStatement>, LefFault>
        ensures { Reads 1 as_is (passed_in_macro inside.now keyword.now) self.old.words self.new.words result }
    {
        self.pass_to(inside, keyword)?;
        Ok(Some(MacroStatement::Other))
    }

    #[tactic(auto, unfolding(crate::specs::Grammar::macro_end))]
    fn macro_end(&mut self, inside: &[u8]) -> Result<Option<MacroStatement>, LefFault>
        ensures { Reads 1 as_is (macro_end inside.now) self.old.words self.new.words result }
    {
        if self.block_ends(inside, inside)? {
            return Ok(None);
        }
        Ok(Some(MacroStatement::Other))
    }

    /// One statement of a macro, and none at its end.
    #[tactic(auto, unfolding(crate::specs::Grammar::macro_statement_new))]
    fn macro_statement(
        &mut self,
        inside: &[u8],
        pins: &PinList,
    ) -> Result<Option<MacroStatement>, LefFault>
        ensures { Reads 1 as_is (macro_statement_new inside.now (is_among (pin_names pins.now))) self.old.words self.new.words result }
    {
        if self.words.next_is(b"END") {
            return self.macro_end(inside);
        }
        if self.words.next_is(b"SIZE") {
            return self.size(inside);
        }
        if self.words.next_is(b"PIN") {
            return self.pin(inside, pins);
        }
        if self.words.next_is_one_of(&[b"OBS", b"DENSITY"]) {
            return self.passed_in_macro(inside, b"END");
        }
        self.passed_in_macro(inside, b";")
    }

    /// All statements of a macro, with its end.
    pub fn macro_body(&mut self, inside: &[u8]) -> Result<MacroBody, LefFault>
        ensures { Reads 0 as_is (macro_body inside.now) self.old.words self.new.words result }
    {
        let mut body = MacroBody {
            size: None,
            pins: PinList::new(self.alloc),
        };
        'statements: while let Some(statement) = self.macro_statement(inside, &body.pins)? {
            body = body.with(self.alloc, statement)?;
        }
        Ok(body)
    }
}
