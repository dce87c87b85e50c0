//! The lines of a text, one after the other.

ghost use Rattle.std.specs.Prelude.{◌≡◌, ◌+◌, ◌∷◌, ◌++◌, [], length, true, IfSome, MatchOption};
ghost use Rattle.std.specs.Str.Lines.{strip_carriage_return};
ghost use Rattle.amber_script.specs.Lines.{is_within_line};
ghost use Rattle.amber_script.specs.Script.{script_lines, says};

use crate::place::is_blank;

/// The first line, without its line feed, and what follows the feed, if there is one.
#[tactic(auto, using(crate::proofs::Pieces::first_line, crate::proofs::Pieces::one_line, amber_log::proofs::Pieces::lacks_more))]
pub fn next_line(bytes: &[u8]) -> (&[u8], Option<&[u8]>)
    ensures line { MatchOption result.1
        (script_lines bytes.now ≡ strip_carriage_return result.0.now ∷ [])
        (λ rest. script_lines bytes.now
        ≡ strip_carriage_return result.0.now ∷ script_lines rest.now) }
    ensures within { is_within_line result.0.now ≡ true }
    ensures split { MatchOption result.1 (bytes.now ≡ result.0.now)
        (λ rest. bytes.now ≡ result.0.now ++ 10 ∷ rest.now) }
    ensures shorter { IfSome result.1
        (λ rest. length bytes.now ≡ length result.0.now + (length rest.now + 1)) }
{
    for place in 0..bytes.len() {
        if bytes[place] == b'\n' {
            return (&bytes[..place], Some(&bytes[place + 1..]));
        }
    }
    (bytes, None)
}

/// A line without one carriage return at its end.
pub fn without_return(line: &[u8]) -> &[u8]
    ensures { result.now ≡ strip_carriage_return line.now }
{
    if !line.is_empty() && line[line.len() - 1] == b'\r' {
        return &line[..line.len() - 1];
    }
    line
}

/// Whether a line is neither blank nor a comment.
pub fn says_something(line: &[u8]) -> bool
    ensures { result ≡ says line.now }
{
    for byte in line {
        if !is_blank(*byte) {
            return *byte != b'#';
        }
    }
    false
}
