ghost use Rattle.std.specs.Prelude.{◌≡◌, ◌==◌, [], ◌∷◌, MatchOption, position};
ghost use Rattle.cli_lang.specs.Words.{words_of as words_in};
ghost use Rattle.cli_lang.specs.Pieces.{AreWords};

/// The words of a line, where there are no more than a command may have.
pub(crate) enum Words<'a> {
    One(&'a [u8]),
    Two(&'a [u8], &'a [u8]),
    Three(&'a [u8], &'a [u8], &'a [u8]),
    More,
}

/// The words of a line: what stands between its spaces, an empty word too. O(n).
pub(crate) fn words_of(line: &[u8]) -> Words<'_>
    ensures { AreWords result (words_in line.now) }
{
    let Some((first, behind_first)) = first_word(line) else {
        return Words::One(line);
    };
    let Some((second, behind_second)) = first_word(behind_first) else {
        return Words::Two(first, behind_first);
    };
    match first_word(behind_second) {
        None => Words::Three(first, second, behind_second),
        Some(_) => Words::More,
    }
}

/// The word in front of the first space, and what stands behind that space.
pub(crate) fn first_word(line: &[u8]) -> Option<(&[u8], &[u8])>
    ensures { MatchOption result (words_in line.now ≡ line.now ∷ []) (λ two. words_in line.now ≡ two.0.now ∷ words_in two.1.now) }
{
    let space = space_in(line)?;
    Some((&line[..space], &line[space + 1..]))
}

// Where the first space stands.
fn space_in(line: &[u8]) -> Option<usize>
    ensures { result ≡ position (λ c. c == 32) line.now }
{
    line.iter().position(|c| *c == b' ')
}
