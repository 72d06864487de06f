//! The first line feed of a text.

ghost use Rattle.std.specs.Prelude.{◌≡◌, ◌==◌, ◌≤◌, ◌++◌, ℕ, List, length};
ghost use Rattle.std.specs.List.{position, position_or_len};
ghost use Rattle.journal_check.specs.Feeds.{HasNoFeed, IsBehindLine};

use memchr::memchr;

/// The octets up to the first line feed, or all of them where there is none.
pub fn line_front(octets: &[u8]) -> &[u8]
    ensures front { (rest : List ℕ) × (octets.now ≡ result.now ++ rest) × IsBehindLine rest }
    ensures plain { HasNoFeed result.now }
{
    octets.split_at(feed_at(octets)).0
}

// Where the first line feed stands, or how many octets there are.
fn feed_at(octets: &[u8]) -> usize
    ensures place { result ≡ position_or_len (λ octet. octet == 10) octets.now }
    ensures inside { result ≤ length octets.now }
{
    feed_place(octets).unwrap_or(octets.len())
}

// Where the first line feed stands.
fn feed_place(octets: &[u8]) -> Option<usize>
    ensures { result ≡ position (λ octet. octet == 10) octets.now }
{
    memchr(b'\n', octets)
}
