//! The numbers that the search works on. Gate k of the caller is place k + 1, and place 0 stands for all
//! free spares. A place has five words of the region: its rank, how far it is (two words), and the gate
//! and the pair that lead to it. The worth of a gate and the price of its spare stand in the answer.
ghost use Rattle.std.specs.Prelude.{◌≡◌, ℕ, ◌+◌, ◌-◌, ◌*◌, ◌^◌, ◌≤◌, ◌<◌, ◌≢◌, length, slice_index, slice_set};
ghost use Rattle.eco_match.specs.Work.{HasPlace, rank_at, far_at, from_at, via_at, natural, worth_at, price_at, SetsRank, SetsLink, SetsWorth, SetsPrice};
ghost use Rattle.eco_match.specs.declared.work.TheConstants.{PLACES};

use crate::answer::{MAX_GATES, MatchOut};

/// Farther than any place that a pair leads to.
pub const NOWHERE: u128 = 1 << 127;

/// How many places there are: one for each of at most 128 gates, and place 0.
pub const PLACES: usize = MAX_GATES + 1;

/// How many words of the region a place has. The first is its rank.
pub const PLACE_WORDS: usize = 5;

// The other words of a place: how far it is, and the gate and the pair that lead to it.
const FAR_LOW: usize = 1;

const FAR_HIGH: usize = 2;

const FROM: usize = 3;

const VIA: usize = 4;

/// What the second word of a number counts.
const WORD: u128 = 1 << 64;

/// When a place was reached; 0 while it wasn't.
pub fn rank_of(tree: &[u64], place: usize) -> usize
    requires { HasPlace tree.now place }
    ensures { result ≡ rank_at tree.now place }
{
    tree[PLACE_WORDS * place] as usize
}

/// How far a place is.
pub fn far_of(tree: &[u64], place: usize) -> u128
    requires { HasPlace tree.now place }
    ensures { result ≡ far_at tree.now place }
{
    u128::from(tree[PLACE_WORDS * place + FAR_LOW])
        + WORD * u128::from(tree[PLACE_WORDS * place + FAR_HIGH])
}

/// The gate that leads to a place.
pub fn from_of(tree: &[u64], place: usize) -> usize
    requires { HasPlace tree.now place }
    ensures { result ≡ from_at tree.now place }
{
    tree[PLACE_WORDS * place + FROM] as usize
}

/// The pair that leads to a place.
pub fn via_of(tree: &[u64], place: usize) -> usize
    requires { HasPlace tree.now place }
    ensures { result ≡ via_at tree.now place }
{
    tree[PLACE_WORDS * place + VIA] as usize
}

/// Sets the rank of a place.
pub fn set_rank(tree: &mut [u64], place: usize, rank: usize)
    requires { HasPlace tree.old place }
    ensures { SetsRank place rank tree.old tree.new }
{
    tree[PLACE_WORDS * place] = rank as u64;
}

/// Sets how far a place is, and what leads to it.
pub fn set_link(tree: &mut [u64], place: usize, far: u128, from: usize, via: usize)
    requires { HasPlace tree.old place }
    ensures { SetsLink place far from via tree.old tree.new }
{
    tree[PLACE_WORDS * place + FAR_LOW] = (far % WORD) as u64;
    tree[PLACE_WORDS * place + FAR_HIGH] = (far / WORD) as u64;
    tree[PLACE_WORDS * place + FROM] = from as u64;
    tree[PLACE_WORDS * place + VIA] = via as u64;
}

/// A number of the answer as the search counts it: one below 0 is past all others.
fn natural_of(number: i128) -> u128
    ensures { result ≡ natural number }
{
    if number < 0 {
        u128::MAX
    } else {
        number as u128
    }
}

/// What the gate at a place is worth.
pub fn worth_of(out: &MatchOut, place: usize) -> u128
    requires { (0 < place) × (place < PLACES) }
    ensures { result ≡ worth_at out.now place }
{
    natural_of(out.worth[place - 1])
}

/// The price of the spare of the gate at a place; a free spare has none.
pub fn price_of(out: &MatchOut, place: usize) -> u128
    requires { place < PLACES }
    ensures { result ≡ price_at out.now place }
{
    if place == 0 {
        0
    } else {
        natural_of(out.price[place - 1])
    }
}

/// Sets what the gate at a place is worth.
pub fn set_worth(out: &mut MatchOut, place: usize, worth: u128)
    requires place { (0 < place) × (place < PLACES) }
    requires worth { worth < 2 ^ 127 }
    ensures { SetsWorth place worth out.old out.new }
{
    out.worth[place - 1] = worth as i128;
}

/// Sets the price of the spare of the gate at a place.
pub fn set_price(out: &mut MatchOut, place: usize, price: u128)
    requires place { (0 < place) × (place < PLACES) }
    requires price { price < 2 ^ 127 }
    ensures { SetsPrice place price out.old out.new }
{
    out.price[place - 1] = price as i128;
}
