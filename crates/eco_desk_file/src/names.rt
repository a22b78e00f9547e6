//! The rules for names and prefixes.

ghost use Rattle.std.specs.Prelude.{◌≡◌, ◌&&◌, nat_le, length};
ghost use Rattle.std.specs.List.{list_all};
ghost use Rattle.eco_common.specs.NameBytes.{is_name_byte, is_name as can_be_name};
ghost use Rattle.eco_desk_file.specs.Desk.{are_prefixes as can_be_prefixes};

use eco_common::Name;

fn has_no_empty(prefixes: &[Name]) -> bool
    ensures { result ≡ list_all (λ p. nat_le 1 (length p)) prefixes.now }
{
    prefixes.iter().all(|prefix| 1 <= prefix.bytes().len())
}

/// Whether these can be the prefixes: 1 to 64, none of which is empty.
pub fn are_prefixes(prefixes: &[Name]) -> bool
    ensures { result ≡ can_be_prefixes prefixes.now }
{
    1 <= prefixes.len() && prefixes.len() <= 64 && has_no_empty(prefixes)
}
