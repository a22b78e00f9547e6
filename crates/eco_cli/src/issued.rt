//! A DEF that is to be issued.

use eco_base::Overlay;
use eco_def::Design;

/// The text of a design, and edits of it.
#[derive(Drop)]
pub struct Issued {
    pub text: Vec<u8>,
    pub design: Design,
    pub overlay: Overlay,
}
