//! A base may be shared between threads.

use crate::Base;

/// Compiles only where a value of the type may go to another thread and be shared between threads.
fn crosses<T: Send + Sync>(_: &T) {}

/// A base may. A server that shares one base between its threads relies on this.
pub fn base_crosses(base: &Base) {
    crosses(base);
}
