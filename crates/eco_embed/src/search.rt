//! The first embedding.

ghost use Rattle.std.specs.Prelude.{◌≡◌, ◌≤◌, ◌<◌, ◌+◌, ◌^◌, ◌∷◌, ℕ, true, length, take, MatchOption};
ghost use Rattle.eco_embed.specs.Feeds.{is_among, rank};
ghost use Rattle.eco_embed.specs.Words.{NoFeeds, FirstFeeds};

use crate::feed::Feed;
use crate::reach::reaches;
use crate::words::{agrees, fed};
use eco_func::Table;

/// The feed of this number in their order.
fn numbered(number: u8) -> Feed
    ensures number { rank result ≡ number }
    ensures among { (k : ℕ) → number < k + 2 → is_among k result ≡ true }
{
    match number {
        0 => Feed::Zero,
        1 => Feed::One,
        _ => Feed::Input(number - 2),
    }
}

/// A feed, and five after it.
fn before(feed: Feed, rest: [Feed; 6]) -> [Feed; 6]
    ensures { result ≡ feed ∷ take 5 rest }
{
    let [second, third, fourth, fifth, sixth, _] = rest;
    [feed, second, third, fourth, fifth, sixth]
}

/// The first feeds of so many pins that give the wanted table, and Zero after them. `feeds` is the number of feeds that a
/// pin may have.
pub fn first_feeds(want: &Table, feeds: u8, words: &[u64], pins: usize) -> Option<[Feed; 6]>
    requires rows { want.now.inputs ≤ 6 }
    requires feeds { feeds ≡ want.now.inputs + 2 }
    requires few { pins ≤ 6 }
    requires words { length words.now ≡ 2 ^ pins }
    ensures { MatchOption result (NoFeeds want.now words.now pins) (FirstFeeds want.now words.now pins) }
{
    if pins == 0 {
        return if agrees(want, words[0]) {
            Some([Feed::Zero; 6])
        } else {
            None
        };
    }
    if !reaches(want, words) {
        return None;
    }
    for number in 0..feeds {
        let feed = numbered(number);
        let left = fed(words, feed);
        if let Some(rest) = first_feeds(want, feeds, &left[..words.len() / 2], pins - 1) {
            return Some(before(feed, rest));
        }
    }
    None
}
