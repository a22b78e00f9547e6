//! What a part of an expression gives.

ghost use Rattle.std.specs.Prelude.{◌≡◌, ◌<◌, ℕ, option_map};
ghost use Rattle.eco_func.specs.Expressions.{Expression, value_at, first_unknown};
ghost use Rattle.eco_func.specs.Parts.{IsPart};

/// The values of a part at all rows of a master's inputs, and its first name that is no input.
#[derive(Clone, Copy, Drop)]
pub struct Part<'a> {
    pub word: u64,
    pub unknown: Option<&'a [u8]>,
}
