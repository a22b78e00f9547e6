//! Reading PINS.

ghost use Rattle.std.specs.Prelude.{◌≡◌, ℕ, List, IfOk, codes, Some, None};
ghost use Rattle.std.specs.Option.{option_or};
ghost use Rattle.eco_text.specs.Cursor.{token};
ghost use Rattle.eco_def.specs.Parsing.{valued, many_until};
ghost use Rattle.eco_def.specs.Grammar.{dir_of as dir_said, pin_net, pin_dir, pin_use, pin_clause, pin_clauses, pin_named, top_pin_new_within, top_pins_within};
ghost use Rattle.eco_text.specs.Tokens.{is_word};
ghost use Rattle.eco_common.specs.KnownNames.{knows, Adds};
ghost use Rattle.eco_def.specs.View.{pin_in, pins_in, usage_in};
ghost use Rattle.eco_def.specs.TopPins.{clause_in, net_given, dir_given, supply_given, ReadsClauses};
ghost use Rattle.eco_def.specs.Reading.{Reads, as_is};

use crate::design::TopPin;
use crate::fault::DefFault;
use crate::pin_clause::{PinClause, PinClauses};
use crate::reader::Reader;
use eco_common::{Dir, MAX_TOP_PINS, Names};
use eco_text::Word;
use sqlite_items::Items;
use std::alloc::Global;
use std::collections::HashMap;

fn read_dir(bytes: &[u8]) -> Option<Dir>
    ensures { result ≡ dir_said bytes.now }
{
    if bytes == b"INPUT".as_slice() {
        return Some(Dir::Input);
    }
    if bytes == b"OUTPUT".as_slice() {
        return Some(Dir::Output);
    }
    if bytes == b"INOUT".as_slice() || bytes == b"FEEDTHRU".as_slice() {
        return Some(Dir::Inout);
    }
    None
}

impl PinClauses {
    /// Keeps a clause, where it is the first of its kind.
    fn add(&mut self, clause: PinClause)
        ensures net { (text : List ℕ) → usage_in text self.new.net ≡ option_or (usage_in text self.old.net) (net_given (clause_in text clause)) }
        ensures dir { (text : List ℕ) → self.new.dir ≡ option_or self.old.dir (dir_given (clause_in text clause)) }
        ensures supply { (text : List ℕ) → self.new.supply ≡ option_or self.old.supply (supply_given (clause_in text clause)) }
    {
        match clause {
            PinClause::Net(net) => self.net = self.net.or(Some(net)),
            PinClause::Direction(dir) => self.dir = self.dir.or(Some(dir)),
            PinClause::Use(supply) => self.supply = self.supply.or(Some(supply)),
            PinClause::Other => {}
        }
    }
}

impl<'a> Reader<'a> {
    fn direction(&mut self) -> Result<Dir, DefFault>
        ensures { Reads 1 as_is (valued dir_said) self.old.words self.new.words result }
    {
        match read_dir(self.words.bytes_ahead()) {
            Some(dir) => {
                self.take()?;
                Ok(dir)
            }
            None => Err(self.bad_statement()),
        }
    }

    #[tactic(auto, unfolding(crate::specs::Grammar::pin_net))]
    fn pin_net(&mut self) -> Result<PinClause, DefFault>
        ensures { Reads 1 clause_in pin_net self.old.words self.new.words result }
    {
        self.take()?;
        Ok(PinClause::Net(self.name()?))
    }

    #[tactic(auto, unfolding(crate::specs::Grammar::pin_dir))]
    fn pin_dir(&mut self) -> Result<PinClause, DefFault>
        ensures { Reads 1 clause_in pin_dir self.old.words self.new.words result }
    {
        self.take()?;
        Ok(PinClause::Direction(self.direction()?))
    }

    /// `USE` and its word, where that is POWER or GROUND. Any other word is left.
    #[tactic(auto, unfolding(crate::specs::Grammar::pin_use))]
    fn pin_use(&mut self) -> Result<PinClause, DefFault>
        ensures { Reads 1 clause_in pin_use self.old.words self.new.words result }
    {
        self.take()?;
        if !self.words.next_is_one_of(&[b"POWER", b"GROUND"]) {
            return Ok(PinClause::Use(false));
        }
        self.take()?;
        Ok(PinClause::Use(true))
    }

    /// A clause, or a word that is passed over.
    #[tactic(auto, unfolding(crate::specs::Grammar::pin_clause))]
    fn pin_clause(&mut self) -> Result<PinClause, DefFault>
        ensures { Reads 1 clause_in pin_clause self.old.words self.new.words result }
    {
        if !self.words.next_is(b"+") {
            self.take()?;
            return Ok(PinClause::Other);
        }
        self.take()?;
        if self.words.next_is(b"NET") {
            return self.pin_net();
        }
        if self.words.next_is(b"DIRECTION") {
            return self.pin_dir();
        }
        if self.words.next_is(b"USE") {
            return self.pin_use();
        }
        Ok(PinClause::Other)
    }

    /// The clauses up to the end.
    fn clauses_to_end(&mut self) -> Result<PinClauses, DefFault>
        ensures { ReadsClauses (many_until (is_word (codes ";")) (λ before. pin_clause)) self.old.words self.new.words result }
    {
        let mut kept = PinClauses {
            net: None,
            dir: None,
            supply: None,
        };
        'clauses: while self.words.next_is_not(b";") {
            let clause = self.pin_clause()?;
            kept.add(clause);
        }
        Ok(kept)
    }

    /// What follows a pin's name: clauses up to the end.
    fn pin_clauses(&mut self) -> Result<PinClauses, DefFault>
        ensures { ReadsClauses pin_clauses self.old.words self.new.words result }
    {
        if !self.words.next_is_one_of(&[b"+", b";"]) {
            return Err(self.bad_statement());
        }
        self.clauses_to_end()
    }

    /// A pin after its name. Its net must be stated.
    fn pin_named(&mut self, name: Word) -> Result<TopPin, DefFault>
        ensures reads { Reads 0 pin_in (pin_named (token self.old.words.text name)) self.old.words self.new.words result }
        ensures name { IfOk result (λ p. p.name ≡ name) }
    {
        let kept = self.pin_clauses()?;
        match kept.net {
            Some(net) => Ok(TopPin {
                name,
                net,
                dir: kept.dir.unwrap_or(Dir::Inout),
                supply: kept.supply.unwrap_or(false),
            }),
            None => Err(self.bad_statement()),
        }
    }

    #[tactic(auto, unfolding(crate::specs::Grammar::top_pin_new_within))]
    fn top_pin(&mut self, names: &mut Names<'a>, room: bool) -> Result<TopPin, DefFault>
        ensures reads { Reads 1 pin_in (top_pin_new_within room (knows names.old)) self.old.words self.new.words result }
        ensures names { IfOk result (λ p. Adds names.old names.new (token self.old.words.text p.name).bytes) }
    {
        self.word(b"-")?;
        let name = self.new_name(names, room)?;
        let pin = self.pin_named(name)?;
        self.word(b";")?;
        Ok(pin)
    }

    pub fn top_pins(&mut self, alloc: Global) -> Result<Items<TopPin>, DefFault>
        ensures { Reads 0 pins_in (top_pins_within (Some MAX_TOP_PINS)) self.old.words self.new.words result }
    {
        let mut names = HashMap::new(alloc);
        let mut pins = Items::new(alloc);
        'pins: while self.words.next_is(b"-") {
            let room = pins.len() < MAX_TOP_PINS;
            let pin = self.top_pin(&mut names, room)?;
            pins.push(pin)?;
        }
        Ok(pins)
    }
}
