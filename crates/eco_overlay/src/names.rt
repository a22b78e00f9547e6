//! Names in order.

ghost use Rattle.std.specs.Prelude.{◌≡◌};
ghost use Rattle.std.specs.List.Sorted.{IsPermutation, IsSortedBy};
ghost use Rattle.std.specs.Ordering.{is_lt, nat_cmp};
ghost use Rattle.std.specs.Cmp.Lexicographic.{slice_cmp};

/// Puts names in order, by their bytes.
pub fn sort_names(names: &mut Vec<&[u8]>)
    ensures permutation { IsPermutation names.old.items names.new.items }
    ensures order { IsSortedBy (λ x y. is_lt (slice_cmp nat_cmp x.now y.now)) names.new.items }
{
    names.sort_unstable();
}
