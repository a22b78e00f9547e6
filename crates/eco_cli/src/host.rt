//! What the outside gives to a command.

ghost use Rattle.std.specs.Prelude.{◌≡◌, ◌+◌, ◌<◌, IfOk};
ghost use Rattle.eco_cli.specs.Opens.{Told, for_source, for_sink, Gives, Asks, Opens, Refuses, Counts, with_back, IsEmptyWhereTold};

use crate::host_fault::HostFault;
use eco_text::{Sink, Source};

/// Opens sources and sinks by their names, and takes them back. It counts refused opens, and of what it takes back the
/// objects that have failed.
pub trait Host {
    type Input: Source + Drop;

    type Output: Sink + Drop;

    /// What it tells: what the next opens of each name give, which opens were asked, what was taken back, and the counts
    /// of refused opens, of objects taken back that had failed, and of those that are open.
    ghost told: { Told Self Self.Input Self.Output };

    /// Opens a source, which has no fault yet.
    fn source(&mut self, name: &str) -> Result<Self::Input, HostFault>
        ensures fresh { IfOk result (λ s. Self.Input.faults s ≡ 0) }
        ensures given { Gives name.now (told.sources self.old) (told.sources self.new) result }
        ensures asks { Asks (for_source name.now) (told.asked self.old) (told.asked self.new) result }
        ensures refusals { Refuses (told.refused self.old) (told.refused self.new) result }
        ensures open { Opens (told.open_sources self.old) (told.open_sources self.new) result }
        ensures sinks { told.sinks self.new ≡ told.sinks self.old }
        ensures sources_back { told.sources_back self.new ≡ told.sources_back self.old }
        ensures sinks_back { told.sinks_back self.new ≡ told.sinks_back self.old }
        ensures reads { told.read_faults self.new ≡ told.read_faults self.old }
        ensures writes { told.write_faults self.new ≡ told.write_faults self.old }
        ensures open_sinks { told.open_sinks self.new ≡ told.open_sinks self.old };

    /// Opens a sink, which has no fault yet and has taken nothing.
    fn sink(&mut self, name: &str) -> Result<Self::Output, HostFault>
        ensures fresh { IfOk result (λ k. Self.Output.faults k ≡ 0) }
        ensures empty { IfOk result (λ k. IsEmptyWhereTold (Self.Output.taken k)) }
        ensures given { Gives name.now (told.sinks self.old) (told.sinks self.new) result }
        ensures asks { Asks (for_sink name.now) (told.asked self.old) (told.asked self.new) result }
        ensures refusals { Refuses (told.refused self.old) (told.refused self.new) result }
        ensures open { Opens (told.open_sinks self.old) (told.open_sinks self.new) result }
        ensures sources { told.sources self.new ≡ told.sources self.old }
        ensures sources_back { told.sources_back self.new ≡ told.sources_back self.old }
        ensures sinks_back { told.sinks_back self.new ≡ told.sinks_back self.old }
        ensures reads { told.read_faults self.new ≡ told.read_faults self.old }
        ensures writes { told.write_faults self.new ≡ told.write_faults self.old }
        ensures open_sources { told.open_sources self.new ≡ told.open_sources self.old };

    /// Takes an opened source back.
    fn done_source(&mut self, source: Self::Input)
        requires { 0 < told.open_sources self.old }
        ensures back { told.sources_back self.new ≡ with_back (told.sources_back self.old) source }
        ensures reads { Counts (Self.Input.faults source) (told.read_faults self.old) (told.read_faults self.new) }
        ensures open { told.open_sources self.new + 1 ≡ told.open_sources self.old }
        ensures sources { told.sources self.new ≡ told.sources self.old }
        ensures sinks { told.sinks self.new ≡ told.sinks self.old }
        ensures asked { told.asked self.new ≡ told.asked self.old }
        ensures sinks_back { told.sinks_back self.new ≡ told.sinks_back self.old }
        ensures refusals { told.refused self.new ≡ told.refused self.old }
        ensures writes { told.write_faults self.new ≡ told.write_faults self.old }
        ensures open_sinks { told.open_sinks self.new ≡ told.open_sinks self.old };

    /// Takes an opened sink back.
    fn done_sink(&mut self, sink: Self::Output)
        requires { 0 < told.open_sinks self.old }
        ensures back { told.sinks_back self.new ≡ with_back (told.sinks_back self.old) sink }
        ensures writes { Counts (Self.Output.faults sink) (told.write_faults self.old) (told.write_faults self.new) }
        ensures open { told.open_sinks self.new + 1 ≡ told.open_sinks self.old }
        ensures sources { told.sources self.new ≡ told.sources self.old }
        ensures sinks { told.sinks self.new ≡ told.sinks self.old }
        ensures asked { told.asked self.new ≡ told.asked self.old }
        ensures sources_back { told.sources_back self.new ≡ told.sources_back self.old }
        ensures refusals { told.refused self.new ≡ told.refused self.old }
        ensures reads { told.read_faults self.new ≡ told.read_faults self.old }
        ensures open_sources { told.open_sources self.new ≡ told.open_sources self.old };
}
