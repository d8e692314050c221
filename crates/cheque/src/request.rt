ghost use Rattle.std.specs.Prelude.{◌≡◌, map, not, option_map, position, string_bytes};
ghost use Rattle.std.specs.Char.{is_ascii_digit};
ghost use Rattle.cheque.specs.Request.{are_date_capitals, are_date_figures, are_figures, begins_figures, asked, asked_alone, asked_of, asked_with_option};

/// What the words of the command line ask for.
#[derive(Debug, Copy, Clone)]
pub enum Request<'a> {
    Help,
    /// The capitals of these figures, with or without 人民币 before them.
    Write { figures: &'a str, prefixed: bool },
    /// The figures of these capitals.
    Read { capitals: &'a str },
    /// The capitals of a date in these figures.
    WriteDate { figures: &'a str },
    /// The figures of a date in these capitals.
    ReadDate { capitals: &'a str },
}

// Whether a word that begins with this character is figures. Every word that begins with ASCII is:
// it is refused as figures if it is not correct.
fn begins_figures(character: char) -> bool
    ensures { result ≡ begins_figures character }
{
    character.is_ascii() || matches!(character, '¥' | '￥' | '０'..='９')
}

// Whether a word is figures.
fn are_figures(word: &str) -> bool
    ensures { result ≡ are_figures word.now }
{
    match word.chars().next() {
        Some(character) => begins_figures(character),
        None => false,
    }
}

// Where the digits at the start end, if anything follows them.
fn first_other(bytes: &[u8]) -> Option<usize>
    ensures { result ≡ position (λ byte. not (is_ascii_digit byte)) bytes.now }
{
    bytes.iter().position(|byte| !byte.is_ascii_digit())
}

// Whether a word is the figures of a date: it begins with digits, and a hyphen follows them.
fn are_date_figures(word: &str) -> bool
    ensures { result ≡ are_date_figures word.now }
{
    let bytes = word.as_bytes();
    match first_other(bytes) {
        Some(place) => place > 0 && bytes[place] == b'-',
        None => false,
    }
}

// Whether a word is the capitals of a date: it has a 年.
fn are_date_capitals(word: &str) -> bool
    ensures { result ≡ are_date_capitals word.now }
{
    word.chars().any(|c| c == '年')
}

// What a single word asks for.
fn request_of_word(word: &str) -> Option<Request<'_>>
    ensures { option_map asked_of result ≡ asked_alone word.now }
{
    if word == "--help" {
        Some(Request::Help)
    } else if word == "--prefix" {
        None
    } else if are_date_figures(word) {
        Some(Request::WriteDate { figures: word })
    } else if are_figures(word) {
        Some(Request::Write {
            figures: word,
            prefixed: false,
        })
    } else if are_date_capitals(word) {
        Some(Request::ReadDate { capitals: word })
    } else {
        Some(Request::Read { capitals: word })
    }
}

// What a word after an option asks for: only the capitals of an amount, with 人民币 before them.
fn request_with_option<'a>(option: &str, word: &'a str) -> Option<Request<'a>>
    ensures { option_map asked_of result ≡ asked_with_option option.now word.now }
{
    if option == "--prefix" && are_figures(word) && !are_date_figures(word) {
        Some(Request::Write {
            figures: word,
            prefixed: true,
        })
    } else {
        None
    }
}

/// The request of these words; `None` if they ask for nothing.
pub fn request_of(words: &[String]) -> Option<Request<'_>>
    ensures { option_map asked_of result ≡ asked (map string_bytes words.now) }
{
    match words {
        [] => None,
        [word] => request_of_word(word.as_str()),
        [option, word] => request_with_option(option.as_str(), word.as_str()),
        _ => None,
    }
}
