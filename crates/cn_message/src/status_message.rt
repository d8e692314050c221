// What a status means, for a person whose number cannot be printed.
use crate::Language;
use crate::message::Message;
use crate::texts::Sentence;
use cn_replace::Sink;

// No contract: tests/rows/messages.tsv tests the wording.
/// Writes a sentence without a text that it is about, in a language.
pub fn put_status_message<S: Sink>(
    sink: &mut S,
    sentence: Sentence,
    language: Language,
) -> Result<(), S::Error> {
    Message::new(language, "", 0).put(sink, sentence)
}
