//! The two words that name no component.

ghost use Rattle.std.specs.Prelude.{◌≡◌};
ghost use Rattle.std.specs.Str.{bytes_eq};
ghost use Rattle.eco_pin_faults.specs.Places.{top_word, every_word};

/// Whether the word stands for the design's own pins.
pub fn is_top(comp: &[u8]) -> bool
    ensures { result ≡ bytes_eq comp.now top_word }
{
    matches!(comp, b"PIN")
}

/// Whether the word stands for every component that has the pin.
pub fn is_any(comp: &[u8]) -> bool
    ensures { result ≡ bytes_eq comp.now every_word }
{
    matches!(comp, b"*")
}
