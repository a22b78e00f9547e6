//! Why a command didn't do its work.

use crate::refusal::Refusal;

/// Why a command didn't do its work.
#[derive(Debug, Drop)]
pub enum Failure {
    /// The index of the first bad word.
    Words(usize),
    /// The input that this option names has more bytes than it may have.
    TooLong(&'static str),
    /// What was read is refused.
    Refused(Refusal),
    /// A source, or an open of the host.
    Read,
    /// A sink.
    Write,
    Memory,
}
