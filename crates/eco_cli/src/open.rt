//! An open that was asked.

#[derive(Clone, Copy, Debug, Drop, PartialEq, Eq)]
pub enum OpenKind {
    Source,
    Sink,
}

/// The kind and the name of an object that was asked for.
#[derive(Debug, Drop)]
pub struct Open {
    pub kind: OpenKind,
    pub name: String,
}
