//! A failed call to the outside.

use thiserror::Error;

/// A call to the outside failed. The object that was called counts it.
#[derive(Clone, Copy, Debug, Drop, PartialEq, Eq, Error)]
#[error("a call to the outside failed")]
pub struct Failed;
