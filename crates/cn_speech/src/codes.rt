// Codes as they are spoken.
ghost use Rattle.std.specs.Prelude.{◌≡◌, ◌==◌, chars, codes, encode_utf8_all, filter, length, OnOk};
ghost use Rattle.cn_codes.specs.Codes.{code_of, is_point};
ghost use Rattle.cn_phrase.specs.Suffix.{EndsWith};
ghost use Rattle.cn_speech.specs.SpokenCodes.{character_said, characters_said, code_in_speech, code_said, figure_said, is_version, one_said, sign_said, version_said};
ghost use Rattle.cn_speech.specs.Voice.{word};

use crate::expressions::put_one;
use crate::numbers::{put_digit, put_figures, put_point};
use crate::voice::put_char;
use crate::{One, Voice};
use cn_codes::digits::value_of;
use cn_codes::{Code, CodeKind};
use cn_core::split_first_char;
use cn_find::is_one_of;
use cn_replace::Sink;
use cn_replace::pieces::{CharTest, Figure, before_rest, split_leading};

// Writes the word for 1.
fn put_one_of_code<S: Sink>(sink: &mut S, one: One) -> Result<(), S::Error>
    ensures { OnOk result (S.took sink.old sink.new (encode_utf8_all (one_said one))) }
{
    match one {
        One::Yi => put_char(sink, '一'),
        One::Yao => put_char(sink, '幺'),
    }
}

// Writes the word for a bar.
fn put_bar<S: Sink>(sink: &mut S, voice: Voice) -> Result<(), S::Error>
    ensures { OnOk result (S.took sink.old sink.new
        (encode_utf8_all (word voice (codes "杠")))) }
{
    put_one(sink, voice, '杠')
}

// Writes a figure of a code by its name.
fn put_figure<S: Sink>(sink: &mut S, voice: Voice, c: char) -> Result<(), S::Error>
    ensures { OnOk result (S.took sink.old sink.new (encode_utf8_all (figure_said voice c))) }
{
    if value_of(c) == 1 {
        put_one_of_code(sink, voice.one)
    } else {
        put_digit(sink, voice, c)
    }
}

// Writes the sign between the groups of a code.
fn put_sign<S: Sink>(sink: &mut S, voice: Voice, kind: CodeKind) -> Result<(), S::Error>
    ensures { OnOk result (S.took sink.old sink.new (encode_utf8_all (sign_said voice kind))) }
{
    match kind {
        CodeKind::Pointed => put_point(sink, voice),
        CodeKind::Barred => put_bar(sink, voice),
        CodeKind::Plain => Ok(()),
    }
}

// Writes a character of a code.
fn put_character<S: Sink>(
    sink: &mut S,
    voice: Voice,
    kind: CodeKind,
    c: char,
) -> Result<(), S::Error>
    ensures { OnOk result
        (S.took sink.old sink.new (encode_utf8_all (character_said voice kind c))) }
{
    if Figure.passes(c) {
        put_figure(sink, voice, c)
    } else {
        put_sign(sink, voice, kind)
    }
}

// Writes the characters of a code.
fn put_characters<S: Sink>(
    sink: &mut S,
    voice: Voice,
    kind: CodeKind,
    written: &str,
) -> Result<(), S::Error>
    ensures { OnOk result (S.took sink.old sink.new
        (encode_utf8_all (characters_said voice kind (chars written.now)))) }
{
    let mut rest = written;
    'putting: while let Some((c, others)) = split_first_char(rest) {
        put_character(sink, voice, kind, c)?;
        rest = others;
    }
    Ok(())
}

#[tactic(auto, unfolding(cn_codes::specs::Codes::is_point))]
fn is_point(c: char) -> bool
    ensures { result ≡ is_point c }
{
    is_one_of(&['.', '点', '點'], c)
}

// Whether a text has so many points.
fn has_points(count: u8, text: &str) -> bool
    ensures { result ≡ (length (filter is_point (chars text.now)) == count) }
{
    match split_first_char(text) {
        Some((c, rest)) if is_point(c) => count > 0 && has_points(count - 1, rest),
        Some((_, rest)) => has_points(count, rest),
        None => count == 0,
    }
}

// Whether a code is a version.
fn is_version(kind: CodeKind, written: &str) -> bool
    ensures { result ≡ is_version kind (chars written.now) }
{
    match kind {
        CodeKind::Pointed => has_points(2, written),
        _ => false,
    }
}

// Writes a version, whose first number is a number.
fn put_version<S: Sink>(
    sink: &mut S,
    voice: Voice,
    kind: CodeKind,
    written: &str,
) -> Result<(), S::Error>
    ensures { OnOk result (S.took sink.old sink.new
        (encode_utf8_all (version_said voice kind (chars written.now)))) }
{
    let (first, rest) = split_leading(Figure, written);
    put_figures(sink, voice, first)?;
    put_characters(sink, voice, kind, rest)
}

// Writes a code of this kind.
fn put_code_of<S: Sink>(
    sink: &mut S,
    voice: Voice,
    kind: CodeKind,
    written: &str,
) -> Result<(), S::Error>
    ensures { OnOk result (S.took sink.old sink.new
        (encode_utf8_all (code_said voice kind (chars written.now)))) }
{
    if is_version(kind, written) {
        put_version(sink, voice, kind, written)
    } else {
        put_characters(sink, voice, kind, written)
    }
}

/// Writes the code with which a text begins, as it is spoken: 一一零 for 110, or 幺幺零 with `One::Yao`.
pub fn put_code<S: Sink>(
    sink: &mut S,
    voice: Voice,
    text: &str,
    code: Code<'_>,
) -> Result<(), S::Error>
    requires { EndsWith (chars text.now) (chars code.rest.now) }
    ensures { OnOk result (S.took sink.old sink.new
        (encode_utf8_all (code_in_speech voice (chars text.now) (code_of code.entry)))) }
{
    put_code_of(sink, voice, code.kind, before_rest(text, code.rest))
}
