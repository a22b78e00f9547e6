//! What an input pin of a spare is put on.

ghost use Rattle.std.specs.Prelude.{◌≡◌};
ghost use Rattle.eco_embed.specs.Feeds.{is_among as is_one_of, is_zero as is_low};

/// What an input pin of a master is put on in a gate's place.
#[derive(Clone, Copy, Debug, Drop, PartialEq, Eq)]
pub enum Feed {
    /// The constant 0.
    Zero,
    /// The constant 1.
    One,
    /// The gate's input of this number, from 0.
    Input(u8),
}

impl Feed {
    /// Whether it is a constant or one of so many inputs.
    pub fn is_among(self, inputs: u8) -> bool
        ensures { result ≡ is_one_of inputs self }
    {
        match self {
            Feed::Zero | Feed::One => true,
            Feed::Input(input) => input < inputs,
        }
    }

    /// Whether it is the constant 0.
    pub fn is_zero(self) -> bool
        ensures { result ≡ is_low self }
    {
        matches!(self, Feed::Zero)
    }
}
