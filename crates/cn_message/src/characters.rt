// The characters of a message: those of a text, and those that may come next.
//
// No contracts: tests/rows/messages.tsv tests the wording.
use crate::Language;
use crate::texts::{Name, name_text, quotes, renminbi, separator};
use cn_judge::byte_index;
use cn_replace::Sink;

// The characters that a list of what may come next shows, in this order. The other characters that
// forms have are variants of these.
static DIGITS: [char; 9] = ['壹', '贰', '叁', '肆', '伍', '陆', '柒', '捌', '玖'];

static FIGURES: [char; 10] = ['0', '1', '2', '3', '4', '5', '6', '7', '8', '9'];

static OTHERS: [char; 30] = [
    '零', '拾', '佰', '仟', '万', '亿', '元', '角', '分', '整', '年', '月', '日', '人', '民', '币', '（', '大', '写',
    '数', '數', '）', '：', '负', '⊗', ',', '.', '¥', '-', '正',
];

/// The character of a text with so many characters before it; the empty text if there is none.
pub fn char_at(text: &str, char_index: usize) -> &str {
    let start = byte_index(text, char_index);
    let end = byte_index(text, char_index.saturating_add(1));
    text.get(start..end).unwrap_or("")
}

/// The first character after a place that is not white space; the empty text if there is none.
pub fn char_after(text: &str, char_index: usize) -> &str {
    let start = byte_index(text, char_index.saturating_add(1));
    let rest = text.get(start..).unwrap_or("").trim_start();
    char_at(rest, 0)
}

// Whether a character cannot be seen in a text, although it is not white space.
fn is_invisible(c: char) -> bool {
    c.is_control()
        || matches!(c, '\u{200b}'..='\u{200f}' | '\u{202a}'..='\u{202e}' | '\u{2060}' | '\u{feff}')
}

// The name of a character that cannot be seen.
fn name_of(c: char) -> Option<Name> {
    if c.is_whitespace() {
        Some(Name::Space)
    } else if is_invisible(c) {
        Some(Name::Invisible)
    } else {
        None
    }
}

/// Writes a character of a text in quotes, or its name if it cannot be seen.
pub fn put_shown<S: Sink>(sink: &mut S, language: Language, shown: &str) -> Result<(), S::Error> {
    match shown.chars().next().and_then(|c| name_of(c)) {
        Some(name) => sink.put(name_text(name, language)),
        None => {
            let (before, after) = quotes(language);
            sink.put(before)?;
            sink.put(shown)?;
            sink.put(after)
        }
    }
}

// The traditional form of a character that is read in both scripts: not of 数, since in brackets each
// sign is in one script.
fn traditional(c: char) -> char {
    match c {
        '贰' => '貳',
        '叁' => '參',
        '陆' => '陸',
        '万' => '萬',
        '亿' => '億',
        '币' => '幣',
        '负' => '負',
        '写' => '寫',
        '点' => '點',
        _ => c,
    }
}

/// Writes a character of an amount or a date in the script of a language.
pub fn put_char<S: Sink>(sink: &mut S, language: Language, c: char) -> Result<(), S::Error> {
    let mut room = [0; 4];
    let c = match language {
        Language::Traditional => traditional(c),
        _ => c,
    };
    sink.put(c.encode_utf8(&mut room))
}

// Writes a character of a list: 人 as 人民币, and a symbol in quotes.
fn put_listed<S: Sink>(sink: &mut S, language: Language, c: char) -> Result<(), S::Error> {
    if c == '人' {
        return sink.put(renminbi(language));
    }
    if c.is_alphanumeric() {
        return put_char(sink, language, c);
    }
    let (before, after) = quotes(language);
    sink.put(before)?;
    put_char(sink, language, c)?;
    sink.put(after)
}

// How many of these characters are in a list, and where the first and the last of them are.
#[derive(Clone, Copy)]
struct Run {
    count: usize,
    first: usize,
    last: usize,
}

fn run_of(characters: &[char], next: &[char]) -> Run {
    let mut run = Run {
        count: 0,
        first: 0,
        last: 0,
    };
    for (i, c) in characters.iter().enumerate() {
        if next.contains(c) {
            if run.count == 0 {
                run.first = i;
            }
            run.last = i;
            run.count = run.count.saturating_add(1);
        }
    }
    run
}

// Writes a separator, unless nothing was written before it.
fn put_separator<S: Sink>(
    sink: &mut S,
    language: Language,
    is_first: bool,
) -> Result<(), S::Error> {
    if is_first {
        return Ok(());
    }
    sink.put(separator(language))
}

// Writes those of some characters that are in a list, and returns whether nothing was written before
// the next ones.
fn put_each<S: Sink>(
    sink: &mut S,
    language: Language,
    characters: &[char],
    next: &[char],
    is_first: bool,
) -> Result<bool, S::Error> {
    let mut is_first = is_first;
    for c in characters {
        if next.contains(c) {
            put_separator(sink, language, is_first)?;
            put_listed(sink, language, *c)?;
            is_first = false;
        }
    }
    Ok(is_first)
}

// The same for digits, of which three or more in order are written as a range.
fn put_digits<S: Sink>(
    sink: &mut S,
    language: Language,
    digits: &[char],
    next: &[char],
    is_first: bool,
) -> Result<bool, S::Error> {
    let run = run_of(digits, next);
    let is_range = run.count >= 3 && run.last.saturating_sub(run.first) < run.count;
    match (is_range, digits.get(run.first), digits.get(run.last)) {
        (true, Some(first), Some(last)) => {
            put_separator(sink, language, is_first)?;
            put_char(sink, language, *first)?;
            sink.put("–")?;
            put_char(sink, language, *last)?;
            Ok(false)
        }
        _ => put_each(sink, language, digits, next, is_first),
    }
}

/// Writes the list of the characters that may come next, in one script.
pub fn put_next<S: Sink>(sink: &mut S, language: Language, next: &[char]) -> Result<(), S::Error> {
    let is_first = put_each(sink, language, &OTHERS, next, true)?;
    let is_first = put_digits(sink, language, &DIGITS, next, is_first)?;
    put_digits(sink, language, &FIGURES, next, is_first)?;
    Ok(())
}
