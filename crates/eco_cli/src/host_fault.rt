//! Why a host opens nothing.

use thiserror::Error;

/// Why an object wasn't opened.
#[derive(Clone, Copy, Debug, Drop, PartialEq, Eq, Error)]
pub enum HostFault {
    /// The host refuses the name, and has counted it.
    #[error("refused")]
    Refused,
    #[error("memory")]
    Memory,
}
