//! The four texts of a base, taken from a list.

ghost use Rattle.std.specs.Prelude.{◌≡◌, map};
ghost use Rattle.eco_cli.specs.BaseTexts.{texts_in, AreBaseTexts};

use crate::base_texts::BaseTexts;

/// The four texts, which stand in this order.
pub fn base_texts(texts: Vec<Vec<u8>>) -> BaseTexts
    requires { AreBaseTexts (map (λ t. t.items) texts.items) }
    ensures { texts_in result ≡ map (λ t. t.items) texts.items }
{
    let mut texts = texts;
    let lef = texts.remove(0);
    let def = texts.remove(0);
    let functions = texts.remove(0);
    let desk = texts.remove(0);
    BaseTexts {
        lef,
        def,
        functions,
        desk,
    }
}
