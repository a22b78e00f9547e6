//! A disk in memory without its counts: what it holds, and its calls.
ghost use Rattle.std.specs.Prelude.{◌≡◌, ◌≤◌, ◌<◌, length, OnOk, vec_len, vec_capacity};
ghost use Rattle.eco_disk.specs.declared.call.Call.TheVariants.{Write, Sync};
ghost use Rattle.eco_disk.specs.declared.call.Call.TheVariants as call;
ghost use Rattle.eco_disk.specs.Disk.{Torn, Cut, Same, Follows, Only};
ghost use Rattle.eco_disk.specs.Contents.{first_of};
ghost use Rattle.eco_disk.specs.Replay.{made_all};
ghost use Rattle.eco_disk.specs.Tape.{CallBegins, Plays, IsLook};

use crate::call::{Attempt, Call, Piece};
use crate::contents::Contents;
use crate::counter::Cause;

#[derive(Drop)]
pub struct Tape {
    pub contents: Contents,
    pub calls: Vec<Attempt>,

    ghost replayed: { contents.bytes.items ≡ made_all calls.items (first_of contents) },
}

// Notes a call that is to fail. Where it isn't, there is room to note it once it is made.
fn begin(calls: &mut Vec<Attempt>, injected: bool, call: Call) -> Result<Call, Cause>
    ensures begun { CallBegins injected call calls.old.items calls.new.items result }
    ensures room { OnOk result (vec_len calls.new < vec_capacity calls.new) }
{
    calls.reserve(1)?;
    if injected {
        calls.push_reserved(Attempt::Failed(call));
        return Err(Cause::Injected);
    }
    Ok(call)
}

fn play_look(
    contents: &Contents,
    calls: &mut Vec<Attempt>,
    injected: bool,
    look: Call,
) -> Result<(), Cause>
    requires { IsLook look }
    ensures { Plays injected look contents.now contents.now calls.old.items calls.new.items result }
{
    let look = begin(calls, injected, look)?;
    calls.push_reserved(Attempt::Made(look));
    Ok(())
}

fn play_write(
    contents: &mut Contents,
    calls: &mut Vec<Attempt>,
    injected: bool,
    at: u64,
    piece: &[u8],
) -> Result<(), Cause>
    requires { at ≤ length contents.old.bytes.items }
    ensures { Plays injected
        (Write at piece.now) contents.old contents.new calls.old.items calls.new.items result }
{
    let kept = Piece::of(*contents.bytes.allocator(), piece)?;
    let write = begin(calls, injected, Call::Write { at, piece: kept })?;
    contents.write(at as usize, piece)?;
    calls.push_reserved(Attempt::Made(write));
    Ok(())
}

fn play_cut(
    contents: &mut Contents,
    calls: &mut Vec<Attempt>,
    injected: bool,
    len: u64,
) -> Result<(), Cause>
    requires { len ≤ length contents.old.bytes.items }
    ensures { Plays injected
        (call.Cut len) contents.old contents.new calls.old.items calls.new.items result }
{
    let cut = begin(calls, injected, Call::Cut { len })?;
    contents.cut(len as usize)?;
    calls.push_reserved(Attempt::Made(cut));
    Ok(())
}

fn play_sync(contents: &mut Contents, calls: &mut Vec<Attempt>, injected: bool) -> Result<(), Cause>
    ensures { Plays injected Sync contents.old contents.new calls.old.items calls.new.items result }
{
    let sync = begin(calls, injected, Call::Sync)?;
    contents.sync()?;
    calls.push_reserved(Attempt::Made(sync));
    Ok(())
}

impl Tape {
    ghost use Rattle.eco_disk.specs.Moments.{moment_of, image_of};

    /// A length or a read.
    pub fn look(&mut self, injected: bool, look: Call) -> Result<(), Cause>
        requires { IsLook look }
        ensures plays { Plays injected look self.old.contents self.new.contents self.old.calls.items self.new.calls.items result }
        ensures same { self.new.contents.bytes.items ≡ self.old.contents.bytes.items }
        ensures crash { Follows moment_of image_of self.old self.new Same }
    {
        play_look(&self.contents, &mut self.calls, injected, look)
    }

    pub fn write(&mut self, injected: bool, at: u64, piece: &[u8]) -> Result<(), Cause>
        requires { at ≤ length self.old.contents.bytes.items }
        ensures plays { Plays injected
            (Write at piece.now) self.old.contents self.new.contents self.old.calls.items self.new.calls.items result }
        ensures torn { Torn at
            (length piece.now) self.old.contents.bytes.items self.new.contents.bytes.items }
        ensures crash { Follows moment_of image_of self.old self.new (Torn at (length piece.now)) }
    {
        play_write(&mut self.contents, &mut self.calls, injected, at, piece)
    }

    pub fn cut(&mut self, injected: bool, len: u64) -> Result<(), Cause>
        requires { len ≤ length self.old.contents.bytes.items }
        ensures plays { Plays injected
            (call.Cut len) self.old.contents self.new.contents self.old.calls.items self.new.calls.items result }
        ensures cut { Cut len self.old.contents.bytes.items self.new.contents.bytes.items }
        ensures crash { Follows moment_of image_of self.old self.new (Cut len) }
    {
        play_cut(&mut self.contents, &mut self.calls, injected, len)
    }

    pub fn sync(&mut self, injected: bool) -> Result<(), Cause>
        ensures plays { Plays injected Sync self.old.contents self.new.contents self.old.calls.items self.new.calls.items result }
        ensures same { self.new.contents.bytes.items ≡ self.old.contents.bytes.items }
        ensures kept { OnOk result
            (Only self.new.contents.bytes.items (image_of self.new (moment_of self.new))) }
        ensures crash { Follows moment_of image_of self.old self.new Same }
    {
        play_sync(&mut self.contents, &mut self.calls, injected)
    }
}
