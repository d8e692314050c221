// A message about a text, sentence by sentence.
//
// No contracts: tests/rows/messages.tsv tests the wording.
use crate::Language;
use crate::characters::{char_after, char_at, put_char, put_next, put_shown};
use crate::texts::{Sentence, sentence_text};
use cn_quantity::{Quantity, QuantityForm};
use cn_quantity_text::{MOST_FIGURES_BYTES, put_figures};
use cn_replace::Sink;

/// What the sentences of a message name: a place of a text, and what may be there.
#[derive(Clone, Copy)]
pub struct Message<'a> {
    pub language: Language,
    pub text: &'a str,
    /// How many characters come before the place.
    pub char_index: usize,
    /// The character that a repair writes.
    pub new: Option<char>,
    /// The characters that may come next.
    pub next: &'a [char],
    pub example: &'static str,
}

// Writes a position as a person counts it, from 1.
fn put_position<S: Sink>(sink: &mut S, char_index: usize) -> Result<(), S::Error> {
    let mut room = [0; MOST_FIGURES_BYTES];
    let position = Quantity {
        numerator: i128::from(char_index as u64).saturating_add(1),
        denominator: 1,
        form: QuantityForm::Whole,
    };
    sink.put(put_figures(&mut room, position))
}

impl<'a> Message<'a> {
    /// A message about a text at a place.
    pub fn new(language: Language, text: &'a str, char_index: usize) -> Message<'a> {
        Message {
            language,
            text,
            char_index,
            new: None,
            next: &[],
            example: "",
        }
    }

    // Writes what a name in a template is replaced with.
    fn put_named<S: Sink>(&self, sink: &mut S, name: &str) -> Result<(), S::Error> {
        match name {
            "place" => put_position(sink, self.char_index),
            "there" => put_shown(sink, self.language, char_at(self.text, self.char_index)),
            "after" => put_shown(sink, self.language, char_after(self.text, self.char_index)),
            "next" => put_next(sink, self.language, self.next),
            "example" => sink.put(self.example),
            _ => match self.new {
                Some(new) => put_char(sink, self.language, new),
                None => Ok(()),
            },
        }
    }

    /// Writes a sentence. Each name in braces in its text is replaced.
    pub fn put<S: Sink>(&self, sink: &mut S, sentence: Sentence) -> Result<(), S::Error> {
        for part in sentence_text(sentence, self.language).split('{') {
            match part.split_once('}') {
                Some((name, after)) => {
                    self.put_named(sink, name)?;
                    sink.put(after)?;
                }
                None => sink.put(part)?,
            }
        }
        Ok(())
    }
}
