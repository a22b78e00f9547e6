//! Names that stand once.

ghost use Rattle.std.specs.Prelude.{IfOk};
ghost use Rattle.eco_text.specs.Cursor.{token};
ghost use Rattle.eco_def.specs.Parsing.{new_name_within};
ghost use Rattle.eco_common.specs.KnownNames.{knows, Adds};
ghost use Rattle.eco_def.specs.Reading.{Reads, IsAhead};

use crate::fault::DefFault;
use crate::reader::Reader;
use eco_common::Names;
use eco_text::Word;

impl<'a> Reader<'a> {
    /// A name that hasn't stood yet and for which there is room. It is added to those that have stood.
    pub fn new_name(&mut self, names: &mut Names<'a>, room: bool) -> Result<Word, DefFault>
        ensures reads { Reads 1 token (new_name_within room (knows names.old)) self.old.words self.new.words result }
        ensures names { IfOk result (λ w. Adds names.old names.new (token self.old.words.text w).bytes) }
        ensures ahead { IfOk result (λ w. IsAhead self.old.words self.new.words w) }
    {
        if !self.words.next_is_name() {
            return Err(self.bad_statement());
        }
        if !self.add_ahead(names)? {
            return Err(self.twice_named());
        }
        if !room {
            return Err(self.limit());
        }
        self.take()
    }
}
