// The phrase that begins at a place of a text.
ghost use Rattle.std.specs.Prelude.{◌≡◌, chars};
ghost use Rattle.std.specs.Char.{char_set_contains};
ghost use Rattle.std.specs.Option.{option_map};
ghost use Rattle.cn_find.specs.Spans.{in_front};
ghost use Rattle.cn_replace.specs.Pieces.{begins};
ghost use Rattle.cn_phrase.specs.declared.phrase.Lead.TheVariants.{Bare, HalfDay, Weekday};
ghost use Rattle.cn_phrase.specs.Private.{forms_at, forms_with, may_lead};
ghost use Rattle.cn_phrase.specs.Phrases.{after_lead, all_forms, begins_clock, begins_hour, clock_forms, follows_day, follows_link, follows_weekday, form_read, found_of, further, furthest, goes_on_with_hour, is_blank, is_by_event, is_free, is_linked_hour, is_name, is_phrase, is_shorter, may_be_alone, phrase_at, phrase_read, refused_before};

use crate::form::Form;
use crate::piece::{Numbers, Numeral, Piece, Progress, read_pieces, without_blank};
use crate::range::is_link;
use crate::shape::Shape;
use crate::word::Word;
use cn_core::split_first_char;
use cn_find::{begins_with_two, ends_week, is_one_of};
use cn_replace::pieces::{CharTest, Figure, begins, ends, split_leading, split_nearest};

/// What is before the first number of a phrase.
#[derive(Debug, Copy, Clone, PartialEq, Eq)]
pub enum Lead {
    /// Nothing.
    Bare,
    /// A word of half a day.
    HalfDay,
    /// A weekday.
    Weekday,
}

// Whether a text begins with a blank.
#[tactic(auto, unfolding(crate::specs::Phrases::is_blank))]
fn begins_blank(text: &str) -> bool
    ensures { result ≡ begins is_blank (chars text.now) }
{
    match split_first_char(text) {
        Some((c, _)) => is_one_of(&[' '], c),
        None => false,
    }
}

impl Lead {
    /// The text after it.
    pub fn after(self, text: &str) -> Option<&str>
        ensures { option_map (λ rest. chars rest.now) result ≡ after_lead self (chars text.now) }
    {
        match self {
            Lead::Bare => { if begins_blank(text) { None } else { Some(text) } }
            Lead::HalfDay => Word::HalfDay.after(text),
            Lead::Weekday => Word::Weekday.after(text),
        }
    }
}

/// A form in a text.
#[derive(Debug, Copy, Clone)]
pub struct Match<'a> {
    pub lead: Lead,
    pub form: Form,
    pub numbers: Numbers,
    /// The text after it.
    pub rest: &'a str,
}

// A form that is read from a text.
fn read_form(lead: Lead, form: Form, text: &str) -> Option<Match<'_>>
    ensures { option_map found_of result ≡ form_read lead form (chars text.now) }
{
    let start = lead.after(text)?;
    let progress = read_pieces(form.pieces(), Progress::start(start))?;
    Some(Match {
        lead,
        form,
        numbers: progress.numbers,
        rest: progress.rest,
    })
}

// The characters directly after which a form is no phrase.
#[tactic(auto, unfolding(crate::specs::Phrases::refused_before))]
fn refused_before(form: Form) -> &'static [char]
    ensures { result.now ≡ refused_before form }
{
    match form {
        Form::Year => &['第', '周', '週', '每'],
        Form::PartOfMonth => &['某', '前', '上', '下', '每', '同', '意', '这', '這', '那'],
        Form::DashDate | Form::SlashDate => &['-', '/', '.'],
        Form::ColonSecond | Form::ColonMinute => &[':', '：', '/', '.', '-'],
        Form::ColonScore => &[':', '：', '-', '/', '.', '[', '(', '"', '%', ',', '，'],
        _ => &[],
    }
}

/// Whether the last character of a text is one of these.
pub fn ends_with(these: &[char], before: &str) -> bool
    ensures { result ≡ begins (λ c. char_set_contains these.now c) (in_front before.now) }
{
    match split_nearest(before) {
        Some((c, _)) => is_one_of(these, c),
        None => false,
    }
}

// Whether a text ends with a link after one of some characters.
fn follows_link(these: &[char], before: &str) -> bool
    ensures { result ≡ follows_link these.now (in_front before.now) }
{
    match split_nearest(before) {
        Some((link, front)) => is_link(link) && ends_with(these, front),
        None => false,
    }
}

// Whether a text begins with an hour.
fn begins_hour(lead: Lead, text: &str) -> bool
    ensures { result ≡ begins_hour lead (chars text.now) }
{
    match lead.after(text) {
        Some(start) => {
            read_pieces(
                &[Piece::Slot(Shape::Clock), Piece::Fixed(Word::Shi)],
                Progress::start(start),
            )
            .is_some()
        }
        None => false,
    }
}

// Whether a text goes on with a link and an hour.
fn goes_on_with_hour(rest: &str) -> bool
    ensures { result ≡ goes_on_with_hour (chars rest.now) }
{
    match Word::Link.after(rest) {
        Some(after) => {
            begins_hour(Lead::Bare, after)
                || begins_hour(Lead::HalfDay, after)
                || begins_hour(Lead::Weekday, after)
        }
        None => false,
    }
}

// Whether a text ends with a day such as 明天.
fn follows_day(before: &str) -> bool
    ensures { result ≡ follows_day (in_front before.now) }
{
    match split_nearest(before) {
        Some((c, front)) => {
            is_one_of(&['天'], c) && ends_with(&['今', '明', '昨', '后', '後', '前', '当', '當', '每'], front)
        }
        None => false,
    }
}

/// Whether a text begins with one of these characters.
pub fn begins_with(these: &[char], rest: &str) -> bool
    ensures { result ≡ begins (λ c. char_set_contains these.now c) (chars rest.now) }
{
    match split_first_char(rest) {
        Some((c, _)) => is_one_of(these, c),
        None => false,
    }
}

// Whether 钟 is after an hour.
fn begins_clock(rest: &str) -> bool
    ensures { result ≡ begins_clock (chars rest.now) }
{
    begins_with(&['钟', '鐘'], rest) && !begins_with_two(&['钟', '鐘'], &['情'], rest)
}

// Words with 前 that do not say when.
const AFTER_FRONT: &[char] = &[
    '提', '瞻', '景', '置', '期', '功', '沿', '途', '程', '面', '方', '言', '卫', '者', '夕', '身', '线', '線', '列',
    '锋', '鋒', '端', '台', '辈', '輩', '例', '兆', '奏', '嘱', '任',
];

// Whether what is around an hour makes it a time.
fn is_by_event(before: &str, rest: &str) -> bool
    ensures { result ≡ is_by_event (in_front before.now) (chars rest.now) }
{
    (begins_with_two(&['左'], &['右'], rest)
        || begins_with_two(
            &['起', '开', '開', '集'],
            &['飞', '飛', '会', '會', '门', '門', '合'],
            rest,
        )
        || (begins_with(&['前'], rest) && !begins_with_two(&['前'], AFTER_FRONT, rest)))
        && !ends_with(
            &[
                '这', '這', '那', '哪', '第', '几', '幾', '差', '有', '每', '最', '以', '上',
            ],
            before,
        )
}

// Whether an hour by itself is a time: it is after a day, or linked to another time, or 钟 is after it.
fn is_linked_hour(hour: u16, before: &str, rest: &str) -> bool
    ensures { result ≡ is_linked_hour hour (in_front before.now) (chars rest.now) }
{
    begins_clock(rest)
        || ends_with(&['日', '号', '號'], before)
        || ((follows_day(before) || is_by_event(before, rest)) && hour != 1)
        || follows_link(&['点', '點', '时', '時', '半', '分', '刻'], before)
        || goes_on_with_hour(rest)
}

// Whether a form by itself is a phrase, between these texts.
fn may_be_alone(form: Form, last: u16, before: &str, rest: &str) -> bool
    ensures { result ≡ may_be_alone form last (in_front before.now) (chars rest.now) }
{
    match form {
        Form::LinkedMonth | Form::LinkedDay => follows_link(&['月', '日', '号', '號'], before),
        Form::HourAlone => is_linked_hour(last, before, rest),
        Form::HourZero => false,
        _ => true,
    }
}

/// Whether a character is a letter or `_`.
pub fn is_name(c: char) -> bool
    ensures { result ≡ is_name c }
{
    c.is_ascii_alphabetic() || is_one_of(&['_'], c)
}

/// Whether a text ends with a letter or `_`.
pub fn ends_with_name(before: &str) -> bool
    ensures { result ≡ begins is_name (in_front before.now) }
{
    match split_nearest(before) {
        Some((c, _)) => is_name(c),
        None => false,
    }
}

// A character with which a number ends.
#[derive(Copy, Clone)]
struct NumberEnd;

impl CharTest for NumberEnd {
    ghost use Rattle.cn_phrase.specs.Phrases.{is_number_end};

    ghost test = { λ _. is_number_end };

    fn passes(self, c: char) -> bool {
        Numeral.passes(c) || is_one_of(&['千', '仟', '万', '萬', '亿', '億'], c)
    }
}

// Whether a text ends with a weekday.
fn follows_weekday(before: &str) -> bool
    ensures { result ≡ follows_weekday (in_front before.now) }
{
    match split_nearest(before) {
        Some((c, front)) => { is_one_of(&['一', '二', '三', '四', '五', '六'], c) && ends_week(front) }
        None => false,
    }
}

// Whether a phrase without a word before it may begin after this text.
fn is_free(before: &str) -> bool
    ensures { result ≡ is_free (in_front before.now) }
{
    !ends_with_name(before)
        && (!ends(NumberEnd, before) || follows_weekday(before))
        && !ends_week(before)
}

// Whether a form that was read is a phrase, after this text.
fn is_phrase(before: &str, found: Match<'_>) -> bool
    ensures { result ≡ is_phrase (in_front before.now) (found_of found.entry) }
{
    if found.lead != Lead::Bare {
        return true;
    }
    is_free(before)
        && !ends_with(refused_before(found.form), before)
        && may_be_alone(found.form, found.numbers.last, before, found.rest)
}

// The forms of times of day.
fn clock_forms() -> &'static [Form]
    ensures { result.now ≡ clock_forms }
{
    &[
        Form::HourMinuteSecond,
        Form::HourMinute,
        Form::HourBare,
        Form::HourZero,
        Form::HourHalf,
        Form::HourQuarter,
        Form::ColonSecond,
        Form::ColonMinute,
        Form::HourAlone,
    ]
}

// Whether a text has fewer bytes than another one.
fn is_shorter(text: &str, other: &str) -> bool
    ensures { result ≡ is_shorter (chars text.now) (chars other.now) }
{
    text.len() < other.len()
}

// The form that reaches further, of two in the same text.
fn further<'a>(one: Option<Match<'a>>, other: Option<Match<'a>>) -> Option<Match<'a>>
    ensures { option_map found_of result
        ≡ further (option_map found_of one.entry) (option_map found_of other.entry) }
{
    match (one, other) {
        (None, _) => other,
        (Some(_), None) => one,
        (Some(first), Some(second)) => {
            if is_shorter(second.rest, first.rest) {
                other
            } else {
                one
            }
        }
    }
}

// A form that is read from a text, if it is a phrase after another text.
fn read_phrase<'a>(before: &str, text: &'a str, lead: Lead, form: Form) -> Option<Match<'a>>
    ensures { option_map found_of result
        ≡ phrase_read (in_front before.now) (chars text.now) lead form }
{
    let found = read_form(lead, form, text)?;
    if is_phrase(before, found) {
        Some(found)
    } else {
        None
    }
}

// The furthest of some forms.
fn furthest<'a>(before: &str, text: &'a str, lead: Lead, forms: &[Form]) -> Option<Match<'a>>
    ensures { option_map found_of result
        ≡ furthest (in_front before.now) (chars text.now) lead forms.now }
{
    let mut best = None;
    let mut left = forms.len();
    'searching: while left > 0 {
        left -= 1;
        best = further(read_phrase(before, text, lead, forms[left]), best);
    }
    best
}

// The forms whose first word can begin with a character.
#[tactic(auto, unfolding(crate::specs::Private::forms_with))]
fn forms_with(c: char) -> &'static [Form]
    ensures { result.now ≡ forms_with c }
{
    match c {
        '年' => &[
            Form::YearMonthDay,
            Form::YearMonth,
            Form::Year,
            Form::HalfAfter,
        ],
        '月' => &[
            Form::MonthDay,
            Form::PartOfMonth,
            Form::MonthsTwice,
            Form::LinkedMonth,
        ],
        '日' | '号' | '號' => &[Form::DaysTwice, Form::LinkedDay],
        '点' | '點' => &[
            Form::HourMinuteSecond,
            Form::HourMinute,
            Form::HourBare,
            Form::HourZero,
            Form::HourHalf,
            Form::HourQuarter,
            Form::HourAlone,
        ],
        '时' | '時' => &[
            Form::HourMinuteSecond,
            Form::HourMinute,
            Form::HourHalf,
            Form::HourQuarter,
            Form::HourAlone,
        ],
        ':' | '：' => &[Form::ColonSecond, Form::ColonMinute, Form::ColonScore],
        '-' => &[Form::DashDate, Form::Years, Form::Months, Form::Days],
        '/' => &[Form::SlashDate],
        '到' | '至' => &[Form::Years, Form::Months, Form::Days],
        '~' | '～' | '－' => &[Form::Years, Form::Months, Form::Days],
        '–' | '—' | '〜' => &[Form::Years, Form::Months, Form::Days],
        '个' | '個' => &[Form::HoursMinutesSeconds, Form::HoursMinutes, Form::HalfOf],
        '小' | '钟' | '鐘' => &[Form::HoursMinutesSeconds, Form::HoursMinutes],
        '分' => &[Form::MinutesSeconds],
        '天' | '周' | '週' | '岁' | '歲' | '斤' | '里' | '吨' | '噸' | '倍' => &[Form::HalfAfter],
        '米' | '度' => &[Form::HalfAfter, Form::LengthOne, Form::LengthTwo],
        '秒' => &[Form::LengthOne, Form::LengthTwo],
        '比' => &[Form::Score],
        _ => &[],
    }
}

// The forms that can begin with a text, by the character after its first number.
fn forms_at(text: &str) -> &'static [Form]
    ensures { result.now ≡ forms_at (chars text.now) }
{
    if !begins(Numeral, text) {
        return &[];
    }
    let (_, rest) = split_leading(Numeral, text);
    match split_first_char(without_blank(begins(Figure, text), rest)) {
        Some((c, _)) => forms_with(c),
        None => &[],
    }
}

// The furthest of all forms without a word before them.
#[tactic(auto, using(crate::proofs::Beginnings::no_others_begin))]
fn bare_at<'a>(before: &str, text: &'a str) -> Option<Match<'a>>
    ensures { option_map found_of result
        ≡ furthest (in_front before.now) (chars text.now) Bare all_forms }
{
    furthest(before, text, Lead::Bare, forms_at(text))
}

// The furthest of the forms of times of day after a word.
#[tactic(auto, using(crate::proofs::Beginnings::nothing_leads))]
fn led_at<'a>(before: &str, text: &'a str, lead: Lead) -> Option<Match<'a>>
    ensures { option_map found_of result
        ≡ furthest (in_front before.now) (chars text.now) lead clock_forms }
{
    match lead.after(text) {
        Some(_) => furthest(before, text, lead, clock_forms()),
        None => None,
    }
}

/// Whether a character can begin a word of half a day or a weekday.
#[tactic(auto, unfolding(crate::specs::Private::may_lead))]
pub fn may_lead(c: char) -> bool
    ensures { result ≡ may_lead c }
{
    matches!(
        c,
        '凌' | '清'
            | '早'
            | '上'
            | '中'
            | '下'
            | '正'
            | '傍'
            | '今'
            | '明'
            | '昨'
            | '当'
            | '當'
            | '深'
            | '半'
            | '午'
            | '夜'
            | '晚'
            | '周'
            | '週'
            | '星'
            | '礼'
            | '禮'
    )
}

// Whether a word of half a day or a weekday can begin with a text: most texts fail this quick test.
fn begins_lead(text: &str) -> bool
    ensures { result ≡ begins may_lead (chars text.now) }
{
    match split_first_char(text) {
        Some((c, _)) => may_lead(c),
        None => false,
    }
}

// The furthest of the times of day after a word of half a day or a weekday.
fn led_by_word<'a>(before: &str, text: &'a str) -> Option<Match<'a>>
    ensures { option_map found_of result
        ≡ further (furthest (in_front before.now) (chars text.now) HalfDay clock_forms)
        (furthest (in_front before.now) (chars text.now) Weekday clock_forms) }
{
    if begins_lead(text) {
        further(
            led_at(before, text, Lead::HalfDay),
            led_at(before, text, Lead::Weekday),
        )
    } else {
        None
    }
}

/// The phrase that begins with a text, if one does, after another text.
pub fn phrase_at<'a>(before: &str, text: &'a str) -> Option<Match<'a>>
    ensures { option_map found_of result ≡ phrase_at (in_front before.now) (chars text.now) }
{
    further(bare_at(before, text), led_by_word(before, text))
}
