//! Lines and words of a text, one after the other.

ghost use Rattle.std.specs.Prelude.{◌≡◌, ◌+◌, ◌∷◌, [], length, option_copied, IfSome, MatchOption};
ghost use Rattle.amber_log.specs.ReadAs.{lines_of};
ghost use Rattle.amber_journal.specs.Parted.{words, words_after};

/// The first line, without its line feed, and what follows the feed. Without a feed there is no line.
#[tactic(auto, using(crate::proofs::Pieces::first_line, amber_log::proofs::Pieces::lacks_more))]
pub fn next_line(bytes: &[u8]) -> Option<(&[u8], &[u8])>
    ensures line { MatchOption result (lines_of bytes.now ≡ [])
        (λ p. lines_of bytes.now ≡ p.0.now ∷ lines_of p.1.now) }
    ensures shorter { IfSome result
        (λ p. length bytes.now ≡ length p.0.now + (length p.1.now + 1)) }
{
    for place in 0..bytes.len() {
        if bytes[place] == b'\n' {
            return Some((&bytes[..place], &bytes[place + 1..]));
        }
    }
    None
}

/// The first word, up to a space, and what follows the space, if there is one.
#[tactic(auto, using(crate::proofs::Pieces::first_word, amber_log::proofs::Pieces::lacks_more))]
pub fn next_word(bytes: &[u8]) -> (&[u8], Option<&[u8]>)
    ensures { words bytes.now ≡ result.0.now ∷ words_after (option_copied result.1) }
{
    for place in 0..bytes.len() {
        if bytes[place] == b' ' {
            return (&bytes[..place], Some(&bytes[place + 1..]));
        }
    }
    (bytes, None)
}
