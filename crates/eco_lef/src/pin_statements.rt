//! Reading the statements of a pin.

ghost use Rattle.std.specs.Prelude.{◌≡◌};
ghost use Rattle.eco_lef.specs.Grammar.{output, plain_dir, dir, direction, plain_use, supply_use, use_said, pin_use, passed_in_pin, pin_end, pin_statement, pin_body};
ghost use Rattle.eco_lef.specs.Collected.{also_in_pin};
ghost use Rattle.eco_lef.specs.Reading.{Reads, as_is};

use crate::fault::LefFault;
use crate::reader::Reader;
use crate::statement::PinStatement;
use eco_common::Dir;

/// What the statements of a pin have said so far.
#[derive(Clone, Copy, Drop)]
pub struct PinBody {
    pub dir: Option<Dir>,
    pub supply: Option<bool>,
}

impl PinBody {
    /// The same with one more statement. The first of its kind counts.
    fn with(self, statement: PinStatement) -> PinBody
        ensures { result ≡ also_in_pin self statement }
    {
        let PinBody { dir, supply } = self;
        match statement {
            PinStatement::Directed(said) => PinBody {
                dir: dir.or(Some(said)),
                supply,
            },
            PinStatement::Used(said) => PinBody {
                dir,
                supply: supply.or(Some(said)),
            },
            PinStatement::Other => self,
        }
    }
}

impl<'a> Reader<'a> {
    #[tactic(auto, unfolding(crate::specs::Grammar::plain_dir))]
    fn plain_dir(&mut self, inside: &[u8], dir: Dir) -> Result<Dir, LefFault>
        ensures { Reads 1 as_is (plain_dir inside.now dir) self.old.words self.new.words result }
    {
        self.take(inside)?;
        Ok(dir)
    }

    /// `OUTPUT`, with or without `TRISTATE` after it.
    #[tactic(auto, unfolding(crate::specs::Grammar::output))]
    fn output(&mut self, inside: &[u8]) -> Result<Dir, LefFault>
        ensures { Reads 1 as_is (output inside.now) self.old.words self.new.words result }
    {
        self.take(inside)?;
        if self.words.next_is(b"TRISTATE") {
            self.take(inside)?;
        }
        Ok(Dir::Output)
    }

    #[tactic(auto, using(crate::proofs::Telling::told))]
    fn dir(&mut self, inside: &[u8]) -> Result<Dir, LefFault>
        ensures { Reads 1 as_is (dir inside.now) self.old.words self.new.words result }
    {
        if self.words.next_is(b"OUTPUT") {
            return self.output(inside);
        }
        if self.words.next_is(b"INPUT") {
            return self.plain_dir(inside, Dir::Input);
        }
        if self.words.next_is_one_of(&[b"INOUT", b"FEEDTHRU"]) {
            return self.plain_dir(inside, Dir::Inout);
        }
        Err(self.bad_statement(inside))
    }

    #[tactic(auto, unfolding(crate::specs::Grammar::direction))]
    fn direction(&mut self, inside: &[u8]) -> Result<Option<PinStatement>, LefFault>
        ensures { Reads 1 as_is (direction inside.now) self.old.words self.new.words result }
    {
        self.take(inside)?;
        let dir = self.dir(inside)?;
        self.word(inside, b";")?;
        Ok(Some(PinStatement::Directed(dir)))
    }

    #[tactic(auto, unfolding(crate::specs::Grammar::plain_use))]
    fn plain_use(&mut self, inside: &[u8]) -> Result<bool, LefFault>
        ensures { Reads 1 as_is (plain_use inside.now) self.old.words self.new.words result }
    {
        self.pass_to(inside, b";")?;
        Ok(false)
    }

    /// What follows from POWER or GROUND on. It is a supply only where nothing else stands there.
    #[tactic(auto, unfolding(crate::specs::Grammar::supply_use))]
    fn supply_use(&mut self, inside: &[u8]) -> Result<bool, LefFault>
        ensures { Reads 1 as_is (supply_use inside.now) self.old.words self.new.words result }
    {
        self.take(inside)?;
        if self.words.next_is(b";") {
            self.take(inside)?;
            return Ok(true);
        }
        self.plain_use(inside)
    }

    fn use_said(&mut self, inside: &[u8]) -> Result<bool, LefFault>
        ensures { Reads 1 as_is (use_said inside.now) self.old.words self.new.words result }
    {
        if self.words.next_is_one_of(&[b"POWER", b"GROUND"]) {
            return self.supply_use(inside);
        }
        self.plain_use(inside)
    }

    #[tactic(auto, unfolding(crate::specs::Grammar::pin_use))]
    fn pin_use(&mut self, inside: &[u8]) -> Result<Option<PinStatement>, LefFault>
        ensures { Reads 1 as_is (pin_use inside.now) self.old.words self.new.words result }
    {
        self.take(inside)?;
        let supply = self.use_said(inside)?;
        Ok(Some(PinStatement::Used(supply)))
    }

    #[tactic(auto, unfolding(crate::specs::Grammar::passed_in_pin))]
    fn passed_in_pin(
        &mut self,
        inside: &[u8],
        keyword: &[u8],
    ) -> Result<Option<PinStatement>, LefFault>
        ensures { Reads 1 as_is (passed_in_pin inside.now keyword.now) self.old.words self.new.words result }
    {
        self.pass_to(inside, keyword)?;
        Ok(Some(PinStatement::Other))
    }

    #[tactic(auto, unfolding(crate::specs::Grammar::pin_end))]
    fn pin_end(&mut self, inside: &[u8]) -> Result<Option<PinStatement>, LefFault>
        ensures { Reads 1 as_is (pin_end inside.now) self.old.words self.new.words result }
    {
        if self.block_ends(inside, inside)? {
            return Ok(None);
        }
        Ok(Some(PinStatement::Other))
    }

    /// One statement of a pin, and none at its end.
    #[tactic(auto, unfolding(crate::specs::Grammar::pin_statement))]
    fn pin_statement(&mut self, inside: &[u8]) -> Result<Option<PinStatement>, LefFault>
        ensures { Reads 1 as_is (pin_statement inside.now) self.old.words self.new.words result }
    {
        if self.words.next_is(b"END") {
            return self.pin_end(inside);
        }
        if self.words.next_is(b"DIRECTION") {
            return self.direction(inside);
        }
        if self.words.next_is(b"USE") {
            return self.pin_use(inside);
        }
        if self.words.next_is(b"PORT") {
            return self.passed_in_pin(inside, b"END");
        }
        self.passed_in_pin(inside, b";")
    }

    /// All statements of a pin, with its end.
    pub fn pin_body(&mut self, inside: &[u8]) -> Result<PinBody, LefFault>
        ensures { Reads 0 as_is (pin_body inside.now) self.old.words self.new.words result }
    {
        let mut body = PinBody {
            dir: None,
            supply: None,
        };
        'statements: while let Some(statement) = self.pin_statement(inside)? {
            body = body.with(statement);
        }
        Ok(body)
    }
}
