//! Objects that are laid ready under names.

ghost use Rattle.std.specs.Prelude.{◌≡◌, []};

use eco_text::{ByteSink, ByteSource};

/// A source that is laid ready under a name, and hasn't failed.
#[derive(Drop)]
pub struct LaidSource {
    pub name: String,
    pub source: ByteSource,
    ghost fresh: { source.faults ≡ 0 },
}

/// A sink that is laid ready under a name, hasn't failed, and has taken nothing.
#[derive(Drop)]
pub struct LaidSink {
    pub name: String,
    pub sink: ByteSink,
    ghost fresh: { sink.faults ≡ 0 },
    ghost empty: { sink.bytes ≡ [] },
}
