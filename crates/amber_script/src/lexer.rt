//! The words of a line. Rests on `place`.

ghost use Rattle.std.specs.Prelude.{◌≡◌, ◌∷◌, ◌++◌, [], IfOk, OnOk, option_map, true};
ghost use Rattle.amber_script.specs.Commands.{texts_of};
ghost use Rattle.amber_script.specs.Lexing.{IsClear, Reads, words_with};
ghost use Rattle.amber_script.specs.Words.{script_words_of};

use crate::place::{Place, Turn, turn_at};
use amber_rows::{Bytes, Text};
use std::alloc::{AllocError, Global};
use std::str;

/// The words of a line that have been read, the bytes of the one that has begun, and where the next
/// byte stands.
#[derive(Drop)]
struct Lexer {
    words: Vec<Bytes>,
    begun: Vec<u8>,
    place: Place,
}

impl Lexer {
    // A lexer before the first byte of a line.
    fn new(alloc: Global) -> Self
        ensures words { result.words.items ≡ [] }
        ensures begun { result.begun.items ≡ [] }
        ensures place { result.place ≡ Place.Between }
    {
        Lexer {
            words: Vec::new(alloc),
            begun: Vec::new(alloc),
            place: Place::Between,
        }
    }

    // Ends the word that has begun.
    fn end_word(&mut self) -> Result<(), AllocError>
        ensures words { OnOk result
            (self.new.words.items ≡ self.old.words.items ++ self.old.begun.items ∷ []) }
        ensures begun { OnOk result (self.new.begun.items ≡ []) }
        ensures place { OnOk result (self.new.place ≡ Place.Between) }
    {
        let word = self.begun.clone()?;
        self.words.push(Bytes::new(word))?;
        self.begun.clear();
        self.place = Place::Between;
        Ok(())
    }

    // Reads a byte; false where it must not stand there.
    #[tactic(auto, using(crate::proofs::Joining::with_words_add, crate::proofs::Joining::with_words_end))]
    fn step(&mut self, byte: u8) -> Result<bool, AllocError>
        requires { IsClear self.old }
        ensures words { IfOk result (λ good. Reads good byte self.old self.new) }
        ensures clear { IfOk result (λ good. good ≡ true → IsClear self.new) }
    {
        match turn_at(self.place, byte) {
            Turn::Go(place) => self.place = place,
            Turn::Add(meant, place) => {
                self.begun.push(meant)?;
                self.place = place;
            }
            Turn::End => self.end_word()?,
            Turn::Wrong => return Ok(false),
        }
        Ok(true)
    }

    // The words of a line that ends here; none where it must not end.
    #[tactic(auto, using(crate::proofs::Joining::with_words_last), unfolding(crate::specs::Words::words_from))]
    fn finish(self) -> Result<Option<Vec<Bytes>>, AllocError>
        requires { IsClear self }
        ensures { IfOk result (λ read.
            option_map (λ words. words.items) read ≡ words_with self []) }
    {
        let Lexer {
            mut words,
            begun,
            place,
        } = self;
        match place {
            Place::Between => Ok(Some(words)),
            Place::Bare | Place::Closed => {
                words.push(Bytes::new(begun))?;
                Ok(Some(words))
            }
            Place::Quoted | Place::Escape => Ok(None),
        }
    }
}

/// The words of a line; none where a quote or a backslash stands wrong.
pub fn read_words(alloc: Global, line: &[u8]) -> Result<Option<Vec<Bytes>>, AllocError>
    ensures { IfOk result (λ read. option_map (λ words. words.items) read
        ≡ script_words_of line.now) }
{
    let mut lexer = Lexer::new(alloc);
    for &byte in line {
        if !lexer.step(byte)? {
            return Ok(None);
        }
    }
    lexer.finish()
}

/// The words as texts, where each of them is UTF-8.
pub fn read_texts(alloc: Global, words: &[Bytes]) -> Result<Option<Vec<Text>>, AllocError>
    ensures { IfOk result (λ read. option_map (λ texts. texts.items) read ≡ texts_of words.now) }
{
    let mut texts = Vec::with_capacity(alloc, words.len())?;
    for word in words {
        match str::from_utf8(word.get()) {
            Ok(text) => texts.push(Text::new(alloc, text)?)?,
            Err(_) => return Ok(None),
        }
    }
    Ok(Some(texts))
}
