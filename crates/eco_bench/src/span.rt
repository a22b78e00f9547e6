//! Spans and marks of a bench. Only a bench makes them.

/// Some words of a bench. [`Bench::carve`](crate::Bench::carve) makes it, and it stands until the bench goes back past it.
#[derive(Clone, Copy, Debug)]
pub struct Span {
    pub(crate) start: usize,
    pub(crate) len: usize,
}

impl Span {
    ghost use Rattle.std.specs.Prelude.{◌≡◌};

    /// The place of its first word in the bench.
    pub fn start(&self) -> usize
        ensures { result ≡ self.now.start }
    {
        self.start
    }

    /// How many words it has.
    pub fn len(&self) -> usize
        ensures { result ≡ self.now.len }
    {
        self.len
    }
}

/// How many words of a bench were carved when the mark was set.
#[derive(Clone, Copy, Debug)]
pub struct Mark {
    pub(crate) used: usize,
}
