// A phrase as it is spoken: its words stay, its figures and signs become characters.
ghost use Rattle.std.specs.Prelude.{◌≡◌, chars, encode_utf8_all, OnOk};
ghost use Rattle.cn_find.specs.Spans.{in_front};
ghost use Rattle.cn_phrase.specs.Phrases.{found_of};
ghost use Rattle.cn_phrase.specs.Pieces.{reading_of};
ghost use Rattle.cn_codes.specs.Words.{begins_any, ends_any};
ghost use Rattle.cn_speech.specs.Numbers.{whole_said};
ghost use Rattle.cn_speech.specs.SpokenPhrases.{after_length, after_zero, before_is, before_length, counted, date_said, figures_said, form_said, hours_word, is_count_of_years, is_length, is_of_era, is_phrase_said, is_score, is_short_length, minutes, minutes_said, number_before, phrase_said, piece_said, pieces_said, seconds_said, slot_said, small, some_minutes, some_seconds, time_said, two_digits, without_seconds, word_said, word_written, year};

use crate::Voice;
use crate::numbers::{put_one_by_one, put_whole};
use crate::voice::put_word;
use cn_codes::digits::has_count;
use cn_codes::words::{begins_any, ends_any, without_last};
use cn_find::{begins_with, ends_old_calendar, ends_with, ends_with_two};
use cn_phrase::form::Form;
use cn_phrase::phrase::Match;
use cn_phrase::piece::{Numbers, Numeral, Piece, Progress, without_blank};
use cn_phrase::{Shape, Word, may_be_years, put_passed};
use cn_replace::Sink;
use cn_replace::numbers::put_same;
use cn_replace::pieces::{Figure, begins, split_leading};

// Writes a number.
fn put_number<S: Sink>(sink: &mut S, voice: Voice, n: u16) -> Result<(), S::Error>
    ensures { OnOk result (S.took sink.old sink.new (encode_utf8_all (whole_said voice n))) }
{
    put_whole(sink, voice, u64::from(n))
}

// Writes a number of hours, or of things: 两 for 2.
fn put_counted<S: Sink>(sink: &mut S, voice: Voice, n: u16) -> Result<(), S::Error>
    ensures { OnOk result (S.took sink.old sink.new (encode_utf8_all (counted voice n))) }
{
    if n == 2 {
        put_word(sink, voice, "两")
    } else {
        put_number(sink, voice, n)
    }
}

// Writes a number after 零.
fn put_after_zero<S: Sink>(sink: &mut S, voice: Voice, n: u16) -> Result<(), S::Error>
    ensures { OnOk result (S.took sink.old sink.new (encode_utf8_all (after_zero voice n))) }
{
    put_word(sink, voice, "零")?;
    put_number(sink, voice, n)
}

// Writes a number, with 零 before one below 10.
fn put_two_digits<S: Sink>(sink: &mut S, voice: Voice, n: u16) -> Result<(), S::Error>
    ensures { OnOk result (S.took sink.old sink.new (encode_utf8_all (two_digits voice n))) }
{
    if 0 < n && n < 10 {
        put_after_zero(sink, voice, n)
    } else {
        put_number(sink, voice, n)
    }
}

// Writes a number of minutes or seconds that is written in these figures.
fn put_minutes<S: Sink>(sink: &mut S, voice: Voice, figures: &str, n: u16) -> Result<(), S::Error>
    ensures { OnOk result (S.took sink.old sink.new
        (encode_utf8_all (minutes voice (chars figures.now) n))) }
{
    if has_count(2, figures) {
        put_two_digits(sink, voice, n)
    } else {
        put_number(sink, voice, n)
    }
}

// Whether a text ends with an era or an old calendar, whose years are numbers.
fn is_of_era(before: &str) -> bool
    ensures { result ≡ is_of_era (in_front before.now) }
{
    ends_old_calendar(before) || ends_with_two(&['國'], &['民'], before)
}

fn is_score(form: Form) -> bool
    ensures { result ≡ is_score form }
{
    matches!(form, Form::Score)
}

// How a phrase is spoken.
#[derive(Copy, Clone)]
struct Manner {
    voice: Voice,
    form: Form,
    of_era: bool,
}

// The number of a slot.
#[derive(Copy, Clone)]
struct Number<'a> {
    shape: Shape,
    written: &'a str,
    value: u16,
    // The text after it.
    rest: &'a str,
}

impl Manner {
    // Writes a year: digit by digit if it has four figures, or two and is not of an era.
    fn put_year<S: Sink>(self, sink: &mut S, figures: &str, n: u16) -> Result<(), S::Error>
        ensures { OnOk result (S.took sink.old sink.new
            (encode_utf8_all (year self (chars figures.now) n))) }
    {
        if has_count(4, figures) || (has_count(2, figures) && !self.of_era) {
            put_one_by_one(sink, self.voice, figures)
        } else {
            put_number(sink, self.voice, n)
        }
    }

    // Writes a number of one to three figures.
    fn put_small<S: Sink>(self, sink: &mut S, n: u16) -> Result<(), S::Error>
        ensures { OnOk result (S.took sink.old sink.new (encode_utf8_all (small self n))) }
    {
        if is_score(self.form) {
            put_number(sink, self.voice, n)
        } else {
            put_counted(sink, self.voice, n)
        }
    }

    // Writes a number that is before this text.
    fn put_number_before<S: Sink>(
        self,
        sink: &mut S,
        figures: &str,
        n: u16,
        rest: &str,
    ) -> Result<(), S::Error>
        ensures { OnOk result (S.took sink.old sink.new
            (encode_utf8_all (number_before self.voice (chars figures.now) n (chars rest.now)))) }
    {
        if begins_with(&['点', '點'], rest) {
            return put_counted(sink, self.voice, n);
        }
        if begins_with(&['分', '秒'], rest) {
            return put_minutes(sink, self.voice, figures, n);
        }
        put_number(sink, self.voice, n)
    }

    // Writes the figures of a slot.
    fn put_figures<S: Sink>(self, sink: &mut S, number: Number<'_>) -> Result<(), S::Error>
        ensures { OnOk result (S.took sink.old sink.new (encode_utf8_all
            (figures_said self number.entry.shape (chars number.entry.written.now)
            number.entry.value (chars number.entry.rest.now)))) }
    {
        match number.shape {
            Shape::Year | Shape::FullYear | Shape::EraYear => {
                self.put_year(sink, number.written, number.value)
            }
            Shape::OneDigit | Shape::TwoDigits => {
                put_one_by_one(sink, self.voice, number.written)
            }
            Shape::Small => self.put_small(sink, number.value),
            Shape::LongCount => put_minutes(sink, self.voice, number.written, number.value),
            _ => self.put_number_before(
                sink,
                number.written,
                number.value,
                without_blank(true, number.rest),
            ),
        }
    }

    // Writes the number of a slot; Chinese characters stay.
    fn put_slot<S: Sink>(self, sink: &mut S, number: Number<'_>) -> Result<(), S::Error>
        ensures { OnOk result (S.took sink.old sink.new (encode_utf8_all
            (slot_said self number.entry.shape (chars number.entry.written.now)
            number.entry.value (chars number.entry.rest.now)))) }
    {
        if begins(Figure, number.written) {
            self.put_figures(sink, number)
        } else {
            put_same(sink, number.written)
        }
    }

    // Writes a piece of a form with which a text begins, given what is read after it.
    fn put_piece<S: Sink>(
        self,
        sink: &mut S,
        piece: Piece,
        text: &str,
        next: Progress<'_>,
    ) -> Result<(), S::Error>
        ensures { OnOk result (S.took sink.old sink.new (encode_utf8_all
            (piece_said self piece (chars text.now) (reading_of next.entry)))) }
    {
        match piece {
            Piece::Slot(shape) => {
                let (written, _) = split_leading(Numeral, text);
                self.put_slot(
                    sink,
                    Number {
                        shape,
                        written,
                        value: next.numbers.last,
                        rest: next.rest,
                    },
                )
            }
            Piece::Fixed(word) => put_fixed(sink, self.voice, word, text),
            Piece::NotBefore(_) | Piece::End => Ok(()),
        }
    }

    // Writes some pieces.
    fn put_pieces<S: Sink>(
        self,
        sink: &mut S,
        pieces: &[Piece],
        progress: Progress<'_>,
    ) -> Result<(), S::Error>
        ensures { OnOk result (S.took sink.old sink.new (encode_utf8_all
            (pieces_said self pieces.now (reading_of progress.entry)))) }
    {
        let mut read = progress;
        let mut count = 0;
        'speaking: while count < pieces.len() {
            let Some(next) = pieces[count].after(read) else {
                return Ok(());
            };
            let text = without_blank(read.after_figure, read.rest);
            self.put_piece(sink, pieces[count], text, next)?;
            read = next;
            count += 1;
        }
        Ok(())
    }
}

// Writes a word with which a text begins, as it is written.
fn put_written<S: Sink>(sink: &mut S, word: Word, text: &str) -> Result<(), S::Error>
    ensures { OnOk result
        (S.took sink.old sink.new (encode_utf8_all (word_written word (chars text.now)))) }
{
    match word.after(text) {
        Some(rest) => put_passed(sink, text, rest),
        None => Ok(()),
    }
}

// Writes a word with which a text begins.
fn put_fixed<S: Sink>(sink: &mut S, voice: Voice, word: Word, text: &str) -> Result<(), S::Error>
    ensures { OnOk result (S.took sink.old sink.new
        (encode_utf8_all (word_said voice word (chars text.now)))) }
{
    match word {
        Word::Link => {
            if begins_with(&['到', '至'], text) {
                put_written(sink, word, text)
            } else {
                put_word(sink, voice, "到")
            }
        }
        Word::Colon => put_word(sink, voice, "比"),
        _ => put_written(sink, word, text),
    }
}

// Writes a date with this year in figures as Y年M月D日.
fn put_date<S: Sink>(sink: &mut S, voice: Voice, figures: &str, n: Numbers) -> Result<(), S::Error>
    ensures { OnOk result (S.took sink.old sink.new
        (encode_utf8_all (date_said voice (chars figures.now) n))) }
{
    put_one_by_one(sink, voice, figures)?;
    put_word(sink, voice, "年")?;
    put_number(sink, voice, n.second)?;
    put_word(sink, voice, "月")?;
    put_number(sink, voice, n.last)?;
    put_word(sink, voice, "日")
}

// Writes seconds.
fn put_some_seconds<S: Sink>(sink: &mut S, voice: Voice, second: u16) -> Result<(), S::Error>
    ensures { OnOk result (S.took sink.old sink.new
        (encode_utf8_all (some_seconds voice second))) }
{
    put_two_digits(sink, voice, second)?;
    put_word(sink, voice, "秒")
}

// Writes seconds; none if they are 0.
fn put_seconds<S: Sink>(sink: &mut S, voice: Voice, second: u16) -> Result<(), S::Error>
    ensures { OnOk result (S.took sink.old sink.new
        (encode_utf8_all (seconds_said voice second))) }
{
    if second == 0 {
        Ok(())
    } else {
        put_some_seconds(sink, voice, second)
    }
}

// Writes minutes and seconds.
fn put_some_minutes<S: Sink>(
    sink: &mut S,
    voice: Voice,
    minute: u16,
    second: u16,
) -> Result<(), S::Error>
    ensures { OnOk result (S.took sink.old sink.new
        (encode_utf8_all (some_minutes voice minute second))) }
{
    put_two_digits(sink, voice, minute)?;
    put_word(sink, voice, "分")?;
    put_seconds(sink, voice, second)
}

// Writes minutes and seconds; none if both are 0.
fn put_minutes_and_seconds<S: Sink>(
    sink: &mut S,
    voice: Voice,
    minute: u16,
    second: u16,
) -> Result<(), S::Error>
    ensures { OnOk result (S.took sink.old sink.new
        (encode_utf8_all (minutes_said voice minute second))) }
{
    if minute == 0 && second == 0 {
        Ok(())
    } else {
        put_some_minutes(sink, voice, minute, second)
    }
}

// Writes a time with colons, with this word after the hour.
fn put_time<S: Sink>(sink: &mut S, voice: Voice, hours: &str, time: Numbers) -> Result<(), S::Error>
    ensures { OnOk result (S.took sink.old sink.new
        (encode_utf8_all (time_said voice (chars hours.now) time))) }
{
    put_counted(sink, voice, time.first)?;
    put_word(sink, voice, hours)?;
    put_minutes_and_seconds(sink, voice, time.second, time.last)
}

// Whether a text begins with 的成绩.
fn is_before_length(rest: &str) -> bool
    ensures { result ≡ begins_any after_length (chars rest.now) }
{
    begins_any(&["的成绩", "的成績"], rest)
}

// Whether a text ends with a word after which a time is a length.
fn is_after_length(before: &str) -> bool
    ensures { result ≡ ends_any before_length (in_front before.now) }
{
    ends_any(
        &["用时", "用時", "成绩", "成績", "时长", "時長", "历时", "歷時", "倒计时", "倒計時"],
        before,
    )
}

// The text before 为 or 是.
fn before_is(before: &str) -> &str
    ensures { in_front result.now ≡ before_is (in_front before.now) }
{
    if ends_with(&['为', '為', '是'], before) {
        without_last(before)
    } else {
        before
    }
}

// Whether a time with colons between these texts says how long something takes.
fn is_length(before: &str, rest: &str) -> bool
    ensures { result ≡ is_length (in_front before.now) (chars rest.now) }
{
    is_before_length(rest) || is_after_length(before_is(before))
}

// The word after the hours of a time with two colons.
fn hours_word(before: &str, rest: &str) -> &'static str
    ensures { chars result.now ≡ hours_word (in_front before.now) (chars rest.now) }
{
    if is_length(before, rest) { "小时" } else { "点" }
}

// The hour and the minutes of a time without seconds.
fn without_seconds(n: Numbers) -> Numbers
    ensures { result ≡ without_seconds n }
{
    Numbers {
        first: n.second,
        second: n.last,
        last: 0,
    }
}

// Writes a phrase without its word of half a day, with which a text begins.
fn put_form<S: Sink>(
    sink: &mut S,
    voice: Voice,
    before: &str,
    found: Match<'_>,
    text: &str,
) -> Result<(), S::Error>
    ensures { OnOk result (S.took sink.old sink.new (encode_utf8_all
        (form_said voice (in_front before.now) (found_of found.entry) (chars text.now)))) }
{
    match found.form {
        Form::DashDate | Form::SlashDate => {
            let (figures, _) = split_leading(Numeral, text);
            put_date(sink, voice, figures, found.numbers)
        }
        Form::ColonMinute => put_time(sink, voice, "点", without_seconds(found.numbers)),
        Form::ColonSecond => {
            let hours = hours_word(before, found.rest);
            put_time(sink, voice, hours, found.numbers)
        }
        form => {
            let manner = Manner {
                voice,
                form,
                of_era: is_of_era(before),
            };
            manner.put_pieces(sink, form.pieces(), Progress::start(text))
        }
    }
}

// Whether a year with which a text begins is a number of years by what is before it: 近1000年.
fn is_count_of_years(form: Form, year: u16, before: &str, text: &str) -> bool
    ensures { result ≡ is_count_of_years form year (in_front before.now) (chars text.now) }
{
    match form {
        Form::Year => {
            year % 100 == 0
                && begins(Figure, text)
                && ends_with(
                    &['达', '達', '今', '有', '近', '約', '约', '過', '过', '經', '经'],
                    before,
                )
        }
        _ => false,
    }
}

// Whether N:N may be minutes and seconds, or hours and minutes: 用时12:30.
fn is_short_length(before: &str, found: Match<'_>) -> bool
    ensures { result ≡ is_short_length (in_front before.now) (found_of found.entry) }
{
    matches!(found.form, Form::ColonMinute) && is_length(before, found.rest)
}

/// Whether a phrase with which a text begins, after another text, is spoken: it has a value, and is
/// neither a year that may be a number of years, as in 1000年前, nor a length of time with one colon,
/// as in 用时12:30.
pub fn is_phrase_said(before: &str, found: Match<'_>, text: &str) -> bool
    ensures { result
        ≡ is_phrase_said (in_front before.now) (found_of found.entry) (chars text.now) }
{
    !may_be_years(found.form, found.numbers.last, text, found.rest)
        && !is_count_of_years(found.form, found.numbers.last, before, text)
        && !is_short_length(before, found)
        && found.form.value(found.numbers).is_some()
}

/// Writes a phrase with which a text begins, after another text, as it is spoken: 十五点三十分 for
/// 15:30. The error is the one of the sink.
pub fn put_phrase<S: Sink>(
    sink: &mut S,
    voice: Voice,
    before: &str,
    found: Match<'_>,
    text: &str,
) -> Result<(), S::Error>
    ensures { OnOk result (S.took sink.old sink.new (encode_utf8_all
        (phrase_said voice (in_front before.now) (found_of found.entry) (chars text.now)))) }
{
    let Some(start) = found.lead.after(text) else {
        return Ok(());
    };
    put_passed(sink, text, start)?;
    put_form(sink, voice, before, found, start)
}
