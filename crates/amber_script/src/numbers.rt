//! Numbers that words are.

ghost use Rattle.std.specs.Prelude.{◌≡◌, ◌<◌, ◌≤◌, true, IfSome};
ghost use Rattle.std.specs.Char.{is_ascii_digit};
ghost use Rattle.std.specs.List.{list_all};
ghost use Rattle.std.specs.Str.Parse.{digits_value};
ghost use Rattle.amber_script.specs.Numbers.{below, is_canonical, number_up_to, number_where};

use itoa::Buffer;

// A number, where it is from 1 to `most` and the word is its decimal.
fn number_where(word: &str, most: u64, number: u64) -> Option<u64>
    ensures number { result ≡ number_where most word.now number }
    ensures range { IfSome result (λ n. (0 < n) × (n ≤ most)) }
{
    let mut buffer = Buffer::new();
    if number == 0 || number > most || buffer.format(number) != word {
        return None;
    }
    Some(number)
}

/// The number from 1 to `most` that a word is, without leading zeros.
pub fn read_number(word: &str, most: u64) -> Option<u64>
    ensures number { result ≡ number_up_to most word.now }
    ensures range { IfSome result (λ n. (0 < n) × (n ≤ most)) }
{
    match word.parse::<u64>() {
        Ok(number) => number_where(word, most, number),
        Err(_) => None,
    }
}

fn are_digits(bytes: &[u8]) -> bool
    ensures { result ≡ list_all is_ascii_digit bytes.now }
{
    bytes.iter().all(|byte| byte.is_ascii_digit())
}

/// Whether a word is a decimal without leading zeros, of any size.
pub fn is_canonical(word: &str) -> bool
    ensures { result ≡ is_canonical word.now }
{
    match word.as_bytes() {
        [] | [b'0', _, ..] => false,
        digits => are_digits(digits),
    }
}

/// The number that a decimal is, where it is below this limit.
#[tactic(auto, using(crate::proofs::WorkerWords::number_read))]
pub fn number_below(word: &str, limit: u32) -> Option<u32>
    requires { is_canonical word.now ≡ true }
    ensures { result ≡ below limit (digits_value 10 word.now) }
{
    match word.parse::<u32>() {
        Ok(number) => { if number < limit { Some(number) } else { None } }
        Err(_) => None,
    }
}
