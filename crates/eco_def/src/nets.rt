//! Reading NETS and SPECIALNETS.

ghost use Rattle.std.specs.Prelude.{◌≡◌, Some, IfOk};
ghost use Rattle.eco_text.specs.Cursor.{token};
ghost use Rattle.eco_def.specs.Grammar.{joint_end, joint, some_use, net_clause_new, net_usage, net_tail, joints_within, net_name_within, net_new_within, nets_within};
ghost use Rattle.eco_def.specs.Parsing.{where_room};
ghost use Rattle.eco_common.specs.KnownNames.{knows, Adds};
ghost use Rattle.eco_def.specs.View.{joint_in, joints_in, usage_in, net_in, nets_in};
ghost use Rattle.eco_def.specs.Reading.{Reads, IsAhead};
ghost use Rattle.eco_def.specs.Sections.{IsPlaced, ArePlacedBetween, AreOfKind};

use crate::design::{Joint, NetStatement};
use crate::fault::DefFault;
use crate::joints::Joints;
use crate::reader::Reader;
use crate::room::Room;
use eco_common::Names;
use eco_text::Word;
use sqlite_items::Items;
use std::alloc::Global;
use std::collections::HashMap;

impl<'a> Reader<'a> {
    /// The `)` of a joint, with or without `+ SYNTHESIZED` before it.
    #[tactic(auto, unfolding(crate::specs::Grammar::joint_end))]
    fn joint_end(&mut self) -> Result<Word, DefFault>
        ensures { Reads 1 token joint_end self.old.words self.new.words result }
    {
        if self.words.next_is(b"+") {
            self.word(b"+")?;
            self.word(b"SYNTHESIZED")?;
        }
        self.word(b")")
    }

    #[tactic(auto, unfolding(crate::specs::Grammar::joint))]
    fn joint(&mut self) -> Result<Joint, DefFault>
        ensures { Reads 1 joint_in joint self.old.words self.new.words result }
    {
        let start = self.word(b"(")?.start;
        let comp = self.name()?;
        let pin = self.name()?;
        let end = self.joint_end()?.end;
        Ok(Joint {
            comp,
            pin,
            start,
            end,
        })
    }

    /// A joint, where there is room for it.
    fn next_joint(&mut self, room: bool) -> Result<Joint, DefFault>
        ensures { Reads 1 joint_in (where_room room joint) self.old.words self.new.words result }
    {
        if !room {
            return Err(self.limit());
        }
        self.joint()
    }

    /// The joints of a net. They are gathered in a list that all nets share, so that none makes one of its own.
    fn joints(
        &mut self,
        alloc: Global,
        room: usize,
        scratch: &mut Vec<Joint>,
    ) -> Result<Joints, DefFault>
        ensures { Reads 0 joints_in (joints_within (Some room)) self.old.words self.new.words result }
    {
        scratch.clear();
        'joints: while self.words.next_is(b"(") {
            let joint = self.next_joint(scratch.len() < room)?;
            scratch.push(joint)?;
        }
        Ok(Joints::of(alloc, scratch.as_slice())?)
    }

    #[tactic(auto, unfolding(crate::specs::Grammar::some_use))]
    fn some_use(&mut self) -> Result<Option<Word>, DefFault>
        ensures { Reads 1 usage_in some_use self.old.words self.new.words result }
    {
        self.take()?;
        Ok(Some(self.name()?))
    }

    /// The use of a net that has none yet, or a word that is passed over.
    #[tactic(auto, unfolding(crate::specs::Grammar::net_clause_new))]
    fn net_clause(&mut self, used: bool) -> Result<Option<Word>, DefFault>
        ensures { Reads 1 usage_in (net_clause_new used) self.old.words self.new.words result }
    {
        if !self.words.next_is(b"+") {
            self.take()?;
            return Ok(None);
        }
        self.take()?;
        if used {
            return Ok(None);
        }
        if !self.words.next_is(b"USE") {
            return Ok(None);
        }
        self.some_use()
    }

    /// What follows a net's joints, up to the end: the first use.
    #[tactic(auto, unfolding(crate::specs::Grammar::net_tail))]
    fn net_tail(&mut self) -> Result<Option<Word>, DefFault>
        ensures { Reads 0 usage_in net_tail self.old.words self.new.words result }
    {
        if !self.words.next_is_one_of(&[b"+", b";"]) {
            return Err(self.bad_statement());
        }
        self.usage()
    }

    fn usage(&mut self) -> Result<Option<Word>, DefFault>
        ensures { Reads 0 usage_in net_usage self.old.words self.new.words result }
    {
        let mut usage: Option<Word> = None;
        'clauses: while self.words.next_is_not(b";") {
            let clause = self.net_clause(usage.is_some())?;
            usage = usage.or(clause);
        }
        Ok(usage)
    }

    fn net_name(&mut self, names: &mut Names<'a>, room: bool) -> Result<Word, DefFault>
        ensures reads { Reads 1 token (net_name_within room (knows names.old)) self.old.words self.new.words result }
        ensures names { IfOk result (λ w. Adds names.old names.new (token self.old.words.text w).bytes) }
        ensures ahead { IfOk result (λ w. IsAhead self.old.words self.new.words w) }
    {
        if self.words.next_is(b"MUSTJOIN") {
            return Err(self.must_join());
        }
        self.new_name(names, room)
    }

    #[tactic(auto, unfolding(crate::specs::Grammar::net_new_within))]
    fn net(
        &mut self,
        alloc: Global,
        special: bool,
        names: &mut Names<'a>,
        room: Room,
        scratch: &mut Vec<Joint>,
    ) -> Result<NetStatement, DefFault>
        ensures reads { Reads 1 net_in (net_new_within (Some room) (knows names.old)) self.old.words self.new.words result }
        ensures names { IfOk result (λ s. Adds names.old names.new (token self.old.words.text s.name).bytes) }
        ensures placed { IfOk result (λ s. IsPlaced self.old.words self.new.words s) }
        ensures kind { IfOk result (λ s. s.special ≡ special) }
    {
        let start = self.word(b"-")?.start;
        let name = self.net_name(names, 0 < room.nets)?;
        let joints = self.joints(alloc, room.joints, scratch)?;
        let usage = self.net_tail()?;
        let end = self.word(b";")?.end;
        Ok(NetStatement {
            name,
            special,
            start,
            end,
            usage,
            joints,
        })
    }

    /// The statements of one section, for which there is so much room.
    pub fn nets(
        &mut self,
        alloc: Global,
        special: bool,
        room: Room,
    ) -> Result<Items<NetStatement>, DefFault>
        ensures reads { Reads 0 nets_in (nets_within (Some room)) self.old.words self.new.words result }
        ensures placed { IfOk result (λ ss. ArePlacedBetween self.old.words self.new.words ss) }
        ensures kind { IfOk result (λ ss. AreOfKind special ss) }
    {
        let mut names = HashMap::with_capacity(alloc, self.names_likely())?;
        let mut nets = Items::new(alloc);
        let mut scratch = Vec::new(alloc);
        let mut room_left = room;
        'statements: while self.words.next_is(b"-") {
            let net = self.net(alloc, special, &mut names, room_left, &mut scratch)?;
            room_left = room_left.behind(&net);
            nets.push(net)?;
        }
        Ok(nets)
    }
}
