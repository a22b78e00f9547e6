//! The names that no component can have.

ghost use Rattle.std.specs.Prelude.{◌≡◌};
ghost use Rattle.eco_issued_laws.specs.Changes.{is_no_component as no_component};

/// Whether no component can have the name: `PIN` stands for the design's own pins, `*` for every component.
pub fn is_no_component(name: &[u8]) -> bool
    ensures { result ≡ no_component name.now }
{
    matches!(name, b"PIN" | b"*")
}
