//! A host in memory.

ghost use Rattle.std.specs.Prelude.{◌≡◌, ◌++◌, ◌<◌, [], ◌∷◌, map, position, string_bytes, vec_len, vec_capacity, Some, OnOk, OnErr, IfOk, MatchOption};
ghost use Rattle.std.specs.Str.{bytes_eq};
ghost use Rattle.eco_cli.specs.Opens.{for_source, for_sink, Gives, Asks, Opens, Refuses};
ghost use Rattle.eco_cli.specs.Laid.{laid_source, laid_sink, ready, hosted, asked_of, asked_by, RefusesAbsent};

use crate::host::Host;
use crate::host_fault::HostFault;
use crate::laid::{LaidSink, LaidSource};
use crate::open::{Open, OpenKind};
use crate::returned::{ReturnedSinks, ReturnedSources};
use eco_common::Memory;
use eco_text::{ByteSink, ByteSource};
use std::alloc::{AllocError, Global};
use std::marker::Model;

/// A host whose objects are laid ready in memory. An open of a name that isn't laid ready is refused.
#[derive(Drop)]
pub struct MemoryHost {
    sources: Vec<LaidSource>,
    sinks: Vec<LaidSink>,
    opens: Vec<Open>,
    sources_back: ReturnedSources,
    sinks_back: ReturnedSinks,
    refused: u64,
    read_faults: u64,
    write_faults: u64,
}

impl Model for MemoryHost {
    ghost use Rattle.std.specs.Prelude.{map};
    ghost use Rattle.eco_cli.specs.Laid.{Hosted, laid_source, laid_sink, asked_of};

    ghost Value = { Hosted };

    ghost view = { λ h. record {
      sources = map laid_source h.sources.items;
      sinks = map laid_sink h.sinks.items;
      asked = map asked_of h.opens.items;
      sources_back = h.sources_back.sources.items;
      sinks_back = h.sinks_back.sinks.items;
      refused = h.refused;
      read_faults = h.read_faults;
      write_faults = h.write_faults;
      open_sources = h.sources_back.awaited;
      open_sinks = h.sinks_back.awaited;
    } };
}

fn first_source(laid: &[LaidSource], name: &str) -> Option<usize>
    ensures { result ≡ position (λ l. bytes_eq (laid_source l).name name.now) laid.now }
{
    laid.iter().position(|one| one.name.as_str() == name)
}

fn source_place(laid: &[LaidSource], name: &str) -> Option<usize>
    ensures { MatchOption result (ready (map laid_source laid.now) name.now ≡ []) (λ i. position (λ l. bytes_eq (laid_source l).name name.now) laid.now ≡ Some i) }
{
    first_source(laid, name)
}

fn first_sink(laid: &[LaidSink], name: &str) -> Option<usize>
    ensures { result ≡ position (λ l. bytes_eq (laid_sink l).name name.now) laid.now }
{
    laid.iter().position(|one| one.name.as_str() == name)
}

fn sink_place(laid: &[LaidSink], name: &str) -> Option<usize>
    ensures { MatchOption result (ready (map laid_sink laid.now) name.now ≡ []) (λ i. position (λ l. bytes_eq (laid_sink l).name name.now) laid.now ≡ Some i) }
{
    first_sink(laid, name)
}

/// An open to be recorded, and room for it.
fn new_open(opens: &mut Vec<Open>, kind: OpenKind, name: &str) -> Result<Open, AllocError>
    ensures open { IfOk result (λ o. asked_of o ≡ asked_by kind name.now) }
    ensures opens { opens.new.items ≡ opens.old.items }
    ensures room { OnOk result (vec_len opens.new < vec_capacity opens.new) }
{
    opens.reserve(1)?;
    let name = String::from_str(*opens.allocator(), name)?;
    Ok(Open { kind, name })
}

impl MemoryHost {
    pub fn new(alloc: Global) -> MemoryHost
        ensures { result ≡ record { sources = []; sinks = []; asked = []; sources_back = []; sinks_back = []; refused = 0; read_faults = 0; write_faults = 0; open_sources = 0; open_sinks = 0 } }
    {
        MemoryHost {
            sources: Vec::new(alloc),
            sinks: Vec::new(alloc),
            opens: Vec::new(alloc),
            sources_back: ReturnedSources {
                sources: Vec::new(alloc),
                awaited: 0,
            },
            sinks_back: ReturnedSinks {
                sinks: Vec::new(alloc),
                awaited: 0,
            },
            refused: 0,
            read_faults: 0,
            write_faults: 0,
        }
    }

    /// Lays a source ready, behind the others of its name. It hasn't failed yet.
    pub fn lay_source(&mut self, name: &str, source: ByteSource) -> Result<(), Memory>
        requires { source.faults ≡ 0 }
        ensures laid { OnOk result (self.new ≡ record self.old { sources = self.old.sources ++ record { name = name.now; object = source } ∷ [] }) }
        ensures memory { OnErr result (self.new ≡ self.old) }
    {
        let name = String::from_str(*self.sources.allocator(), name)?;
        self.sources.push(LaidSource { name, source })?;
        Ok(())
    }

    /// Lays a sink ready, behind the others of its name. It hasn't failed yet and has taken nothing.
    pub fn lay_sink(&mut self, name: &str, sink: ByteSink) -> Result<(), Memory>
        requires fresh { sink.faults ≡ 0 }
        requires empty { sink.bytes ≡ [] }
        ensures laid { OnOk result (self.new ≡ record self.old { sinks = self.old.sinks ++ record { name = name.now; object = sink } ∷ [] }) }
        ensures memory { OnErr result (self.new ≡ self.old) }
    {
        let name = String::from_str(*self.sinks.allocator(), name)?;
        self.sinks.push(LaidSink { name, sink })?;
        Ok(())
    }

    /// The sinks that were taken back, in order.
    pub fn sinks(&self) -> &[ByteSink]
        ensures { result.now ≡ self.now.sinks_back }
    {
        &self.sinks_back.sinks
    }
}

impl Host for MemoryHost {
    type Input = ByteSource;

    type Output = ByteSink;

    ghost told = { hosted };

    fn source(&mut self, name: &str) -> Result<ByteSource, HostFault>
        ensures absent { RefusesAbsent (ready self.old.sources name.now) result }
        ensures fresh { IfOk result (λ s. s.faults ≡ 0) }
        ensures given { Gives name.now (hosted.sources self.old) (hosted.sources self.new) result }
        ensures asks { Asks (for_source name.now) (hosted.asked self.old) (hosted.asked self.new) result }
        ensures refusals { Refuses (hosted.refused self.old) (hosted.refused self.new) result }
        ensures open { Opens (hosted.open_sources self.old) (hosted.open_sources self.new) result }
        ensures sinks { hosted.sinks self.new ≡ hosted.sinks self.old }
        ensures sources_back { hosted.sources_back self.new ≡ hosted.sources_back self.old }
        ensures sinks_back { hosted.sinks_back self.new ≡ hosted.sinks_back self.old }
        ensures reads { hosted.read_faults self.new ≡ hosted.read_faults self.old }
        ensures writes { hosted.write_faults self.new ≡ hosted.write_faults self.old }
        ensures open_sinks { hosted.open_sinks self.new ≡ hosted.open_sinks self.old }
    {
        let Ok(open) = new_open(&mut self.opens, OpenKind::Source, name) else {
            return Err(HostFault::Memory);
        };
        let Some(place) = source_place(&self.sources, name) else {
            let _ = self.opens.push(open);
            self.refused = self.refused.saturating_add(1);
            return Err(HostFault::Refused);
        };
        if self.sources_back.take_room().is_err() {
            return Err(HostFault::Memory);
        }
        let _ = self.opens.push(open);
        let LaidSource { name: _, source } = self.sources.remove(place);
        Ok(source)
    }

    fn sink(&mut self, name: &str) -> Result<ByteSink, HostFault>
        ensures absent { RefusesAbsent (ready self.old.sinks name.now) result }
        ensures fresh { IfOk result (λ k. k.faults ≡ 0) }
        ensures empty { IfOk result (λ k. k.bytes ≡ []) }
        ensures given { Gives name.now (hosted.sinks self.old) (hosted.sinks self.new) result }
        ensures asks { Asks (for_sink name.now) (hosted.asked self.old) (hosted.asked self.new) result }
        ensures refusals { Refuses (hosted.refused self.old) (hosted.refused self.new) result }
        ensures open { Opens (hosted.open_sinks self.old) (hosted.open_sinks self.new) result }
        ensures sources { hosted.sources self.new ≡ hosted.sources self.old }
        ensures sources_back { hosted.sources_back self.new ≡ hosted.sources_back self.old }
        ensures sinks_back { hosted.sinks_back self.new ≡ hosted.sinks_back self.old }
        ensures reads { hosted.read_faults self.new ≡ hosted.read_faults self.old }
        ensures writes { hosted.write_faults self.new ≡ hosted.write_faults self.old }
        ensures open_sources { hosted.open_sources self.new ≡ hosted.open_sources self.old }
    {
        let Ok(open) = new_open(&mut self.opens, OpenKind::Sink, name) else {
            return Err(HostFault::Memory);
        };
        let Some(place) = sink_place(&self.sinks, name) else {
            let _ = self.opens.push(open);
            self.refused = self.refused.saturating_add(1);
            return Err(HostFault::Refused);
        };
        if self.sinks_back.take_room().is_err() {
            return Err(HostFault::Memory);
        }
        let _ = self.opens.push(open);
        let LaidSink { name: _, sink } = self.sinks.remove(place);
        Ok(sink)
    }

    fn done_source(&mut self, source: ByteSource) {
        if source.has_failed() {
            self.read_faults = self.read_faults.saturating_add(1);
        }
        self.sources_back.add(source);
    }

    fn done_sink(&mut self, sink: ByteSink) {
        if sink.has_failed() {
            self.write_faults = self.write_faults.saturating_add(1);
        }
        self.sinks_back.add(sink);
    }
}
