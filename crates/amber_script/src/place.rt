//! Where in a line a byte stands, and what it does there.

ghost use Rattle.std.specs.Prelude.{◌≡◌, ◌∷◌, ℕ, List};
ghost use Rattle.amber_script.specs.Lexing.{KeepsClear, words_behind};
ghost use Rattle.amber_script.specs.Words.{is_blank, byte_of_escape, words_from};

/// Where a byte of a line stands.
#[derive(Clone, Copy)]
pub enum Place {
    /// Before or between words.
    Between,
    /// In a word without quotes.
    Bare,
    /// Between a word's quotes.
    Quoted,
    /// Between a word's quotes, after a backslash.
    Escape,
    /// After the quote that closes a word.
    Closed,
}

/// What a byte does.
#[derive(Clone, Copy)]
pub enum Turn {
    /// It only leads on.
    Go(Place),
    /// It adds a byte to the word, and leads on.
    Add(u8, Place),
    /// It ends the word.
    End,
    /// It must not stand there.
    Wrong,
}

/// A space or a tab.
pub fn is_blank(byte: u8) -> bool
    ensures { result ≡ is_blank byte }
{
    byte == b' ' || byte == b'\t'
}

// The byte that stands for itself or another after a backslash.
fn byte_of_escape(byte: u8) -> Option<u8>
    ensures { result ≡ byte_of_escape byte }
{
    match byte {
        b'"' => Some(b'"'),
        b'\\' => Some(b'\\'),
        b'n' => Some(b'\n'),
        b'r' => Some(b'\r'),
        _ => None,
    }
}

/// What a byte at a place does.
#[tactic(auto, unfolding(crate::specs::Words::words_from))]
pub fn turn_at(place: Place, byte: u8) -> Turn
    ensures words { (rest : List ℕ) → words_from place (byte ∷ rest) ≡ words_behind result rest }
    ensures clear { KeepsClear place result }
{
    match place {
        Place::Between if is_blank(byte) => Turn::Go(Place::Between),
        Place::Bare | Place::Closed if is_blank(byte) => Turn::End,
        Place::Between if byte == b'"' => Turn::Go(Place::Quoted),
        Place::Between => Turn::Add(byte, Place::Bare),
        Place::Bare if byte != b'"' => Turn::Add(byte, Place::Bare),
        Place::Bare | Place::Closed => Turn::Wrong,
        Place::Quoted if byte == b'"' => Turn::Go(Place::Closed),
        Place::Quoted if byte == b'\\' => Turn::Go(Place::Escape),
        Place::Quoted => Turn::Add(byte, Place::Quoted),
        Place::Escape => match byte_of_escape(byte) {
            Some(meant) => Turn::Add(meant, Place::Quoted),
            None => Turn::Wrong,
        },
    }
}
