//! Laws of the definitions that the journal's clauses cite.
ghost use Rattle.std.specs.Prelude.{◌≡◌, ◌≢◌, ◌≤◌, ◌∷◌, ◌++◌, ℕ, List, Some, Bool, IsTrue};
ghost use Rattle.eco_journal.specs.Meaning.{AreBytes, FollowsLayout, ListsEntries, EndsAlike};
ghost use Rattle.eco_journal.specs.Layout.{IsHead, ArePayloads, IsWholeJournal, HasBase, Stores, entries, bad_record, front, magic};
ghost use Rattle.eco_journal.specs.StandsOver.{StandsOver};

use eco_disk::Disk;

/// The entries of bytes, and the place of a bad record, are those that the layout says.
pub fn bytes_follow_the_layout()
    ensures { (bytes : List ℕ) → AreBytes bytes → FollowsLayout bytes }
{}

/// A header of whole bytes has the digest of their base.
pub fn whole_bytes_have_their_base()
    ensures { (digest bytes : List ℕ) → IsWholeJournal digest bytes → HasBase digest bytes }
{}

/// Bytes whose entries can be read have no bad record.
pub fn entries_have_no_bad_record()
    ensures { (bytes : List ℕ) (payloads : List (List ℕ)) (place : ℕ)
        → entries bytes ≡ Some payloads → bad_record bytes ≢ Some place }
{}

/// A gate that isn't open ends the entries of bytes in one way: no other header, entries and rest are theirs.
pub fn one_gate_ends_the_entries()
    ensures { (digest head bytes : List ℕ) (payloads others : List (List ℕ)) (gate other : ℕ)
        (rest after : List ℕ) → IsHead digest head → ArePayloads payloads → gate ≢ 1
        → bytes ≡ front head payloads ++ gate ∷ rest → (l : ListsEntries bytes others (other ∷ after))
        → other ≢ 1
        → EndsAlike head payloads (gate ∷ rest) (magic ++ l.digest) others (other ∷ after) }
{}

/// What stands over a run of appends and over the run after it stands over both.
pub fn runs_follow_one_another<D: Disk>()
    ensures { (disk : D) (digest : List ℕ) (from between to : ℕ)
        (entries more others begun : List (List ℕ)) → from ≤ between → between ≤ to
        → StandsOver (λ bytes book. Stores digest book bytes)
        (D.image disk) from between entries more begun
        → StandsOver (λ bytes book. Stores digest book bytes) (D.image disk) between to
        (entries ++ more) others begun
        → StandsOver (λ bytes book. Stores digest book bytes) (D.image disk) from to entries
        (more ++ others) begun }
{}

/// The same of runs of any calls, by whatever test bytes open to a book of them.
pub fn runs_of_calls_follow_one_another<C, D: Disk>()
    ensures { (disk : D) (opens : List ℕ → List C → Bool) (from between to : ℕ)
        (book calls more begun : List C) → from ≤ between → between ≤ to
        → StandsOver (λ bytes calls. IsTrue (opens bytes calls))
        (D.image disk) from between book calls begun
        → StandsOver (λ bytes calls. IsTrue (opens bytes calls)) (D.image disk) between to
        (book ++ calls) more begun
        → StandsOver (λ bytes calls. IsTrue (opens bytes calls)) (D.image disk) from to book
        (calls ++ more) begun }
{}
