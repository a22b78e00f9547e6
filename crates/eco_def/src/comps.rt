//! Reading COMPONENTS.

ghost use Rattle.std.specs.Prelude.{◌≡◌, Some, IfOk};
ghost use Rattle.eco_text.specs.Cursor.{token};
ghost use Rattle.eco_def.specs.Parsing.{valued};
ghost use Rattle.eco_def.specs.Grammar.{orient_of, place, comp_clause, comp_place, comp_new_within, comps_within};
ghost use Rattle.eco_common.specs.KnownNames.{knows, Adds};
ghost use Rattle.eco_def.specs.View.{comp_in, comps_in};
ghost use Rattle.eco_def.specs.Reading.{Reads, as_is};

use crate::design::Comp;
use crate::fault::DefFault;
use crate::orient::Orient;
use crate::place::Place;
use crate::reader::Reader;
use eco_common::{MAX_COMPS, Names, Point};
use sqlite_items::Items;
use std::alloc::Global;
use std::collections::HashMap;

fn read_orient(bytes: &[u8]) -> Option<Orient>
    ensures { result ≡ orient_of bytes.now }
{
    match bytes {
        b"N" => Some(Orient::N),
        b"S" => Some(Orient::S),
        b"E" => Some(Orient::E),
        b"W" => Some(Orient::W),
        b"FN" => Some(Orient::FN),
        b"FS" => Some(Orient::FS),
        b"FE" => Some(Orient::FE),
        b"FW" => Some(Orient::FW),
        _ => None,
    }
}

impl<'a> Reader<'a> {
    fn orient(&mut self) -> Result<Orient, DefFault>
        ensures { Reads 1 as_is (valued orient_of) self.old.words self.new.words result }
    {
        match read_orient(self.words.bytes_ahead()) {
            Some(orient) => {
                self.take()?;
                Ok(orient)
            }
            None => Err(self.bad_statement()),
        }
    }

    #[tactic(auto, unfolding(crate::specs::Grammar::place))]
    fn place(&mut self) -> Result<Place, DefFault>
        ensures { Reads 1 as_is place self.old.words self.new.words result }
    {
        self.word(b"(")?;
        let x = self.integer()?;
        let y = self.integer()?;
        self.word(b")")?;
        let orient = self.orient()?;
        let point = Point {
            x: i64::from(x),
            y: i64::from(y),
        };
        Ok(Place { point, orient })
    }

    /// A place, or a word that is passed over.
    #[tactic(auto, unfolding(crate::specs::Grammar::comp_clause, crate::specs::Grammar::some_place))]
    fn comp_clause(&mut self) -> Result<Option<Place>, DefFault>
        ensures { Reads 1 as_is comp_clause self.old.words self.new.words result }
    {
        if !self.words.next_is(b"+") {
            self.take()?;
            return Ok(None);
        }
        self.take()?;
        if !self.words.next_is_one_of(&[b"PLACED", b"FIXED", b"COVER"]) {
            return Ok(None);
        }
        self.take()?;
        Ok(Some(self.place()?))
    }

    /// The first place of the clauses up to the end.
    #[tactic(auto, unfolding(crate::specs::Grammar::comp_place))]
    fn comp_place(&mut self) -> Result<Option<Place>, DefFault>
        ensures { Reads 0 as_is comp_place self.old.words self.new.words result }
    {
        let mut place = None;
        'clauses: while self.words.next_is_not(b";") {
            let clause = self.comp_clause()?;
            place = place.or(clause);
        }
        Ok(place)
    }

    #[tactic(auto, unfolding(crate::specs::Grammar::comp_new_within))]
    fn comp(&mut self, names: &mut Names<'a>, room: bool) -> Result<Comp, DefFault>
        ensures reads { Reads 1 comp_in (comp_new_within room (knows names.old)) self.old.words self.new.words result }
        ensures names { IfOk result (λ c. Adds names.old names.new (token self.old.words.text c.name).bytes) }
    {
        self.word(b"-")?;
        let name = self.new_name(names, room)?;
        let model = self.name()?;
        let place = self.comp_place()?;
        self.word(b";")?;
        Ok(Comp { name, model, place })
    }

    pub fn comps(&mut self, alloc: Global) -> Result<Items<Comp>, DefFault>
        ensures { Reads 0 comps_in (comps_within (Some MAX_COMPS)) self.old.words self.new.words result }
    {
        let mut names = HashMap::with_capacity(alloc, self.names_likely())?;
        let mut comps = Items::new(alloc);
        'comps: while self.words.next_is(b"-") {
            let room = comps.len() < MAX_COMPS;
            let comp = self.comp(&mut names, room)?;
            comps.push(comp)?;
        }
        Ok(comps)
    }
}
