//! An option of a command, as its table lists it.

/// What the value of an option is.
#[derive(Clone, Copy, Debug, Drop, PartialEq, Eq)]
pub enum OptionKind {
    /// The name of an input, which is read. It has at most that many bytes.
    Input { limit: u32 },
    /// Any value.
    Text,
    /// A list of names with commas. None is empty.
    Names,
    /// A truth table of at most six inputs: 0 or 1 for each row.
    Table,
    /// A list of at most six feeds with commas: 0, 1, or an input of the gate, `i0` to `i5`.
    Feeds,
}

/// An option: its word, as `--def`, and what its value is.
#[derive(Clone, Copy, Debug, Drop)]
pub struct CommandOption {
    pub word: &'static str,
    pub kind: OptionKind,
}
