//! The four texts of a base, read.

use eco_def::Design;
use eco_desk_file::DeskFile;
use eco_func::Functions;
use eco_lef::Library;
use std::marker::Model;

/// What a base's texts say, and the DEF text itself, into which its design points.
#[derive(Drop)]
pub struct Texts {
    text: Vec<u8>,
    design: Design,
    library: Library,
    functions: Functions,
    desk: DeskFile,
}

impl Model for Texts {
    ghost use Rattle.eco_base.specs.Texts.{TextParts, AreRead};

    ghost Value = { TextParts };

    ghost view = { λ t. record { text = t.text.items; design = t.design; library = t.library; functions = t.functions; desk = t.desk } };

    ghost invariant = { λ t. AreRead (record { text = t.text.items; design = t.design; library = t.library; functions = t.functions; desk = t.desk }) };
}

impl Texts {
    ghost use Rattle.std.specs.Prelude.{◌≡◌};
    ghost use Rattle.eco_base.specs.Texts.{TextParts, AreRead};

    /// The texts of these parts, which were read.
    pub(crate) fn of(
        text: Vec<u8>,
        design: Design,
        library: Library,
        functions: Functions,
        desk: DeskFile,
    ) -> Texts
        requires { AreRead (record { text = text.items; design = design; library = library; functions = functions; desk = desk }) }
        ensures { result ≡ record { text = text.items; design = design; library = library; functions = functions; desk = desk } }
    {
        Texts {
            text,
            design,
            library,
            functions,
            desk,
        }
    }

    /// The DEF text.
    pub fn text(&self) -> &[u8]
        ensures value { result.now ≡ self.now.text }
        ensures read { AreRead self.now }
    {
        &self.text
    }

    /// The design of the DEF text.
    pub fn design(&self) -> &Design
        ensures { result.now ≡ self.now.design }
    {
        &self.design
    }

    /// The masters of the LEF.
    pub fn library(&self) -> &Library
        ensures value { result.now ≡ self.now.library }
        ensures read { AreRead self.now }
    {
        &self.library
    }

    /// The functions of the functions file.
    pub fn functions(&self) -> &Functions
        ensures { result.now ≡ self.now.functions }
    {
        &self.functions
    }

    /// The desk file.
    pub fn desk(&self) -> &DeskFile
        ensures { result.now ≡ self.now.desk }
    {
        &self.desk
    }

    /// The DEF text and its design, without the rest.
    pub fn into_text_and_design(self) -> (Vec<u8>, Design)
        ensures text { result.0.items ≡ self.text }
        ensures design { result.1 ≡ self.design }
        ensures read { AreRead self }
    {
        (self.text, self.design)
    }
}
