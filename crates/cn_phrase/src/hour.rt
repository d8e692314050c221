// The hour of 24 of a time of day.
ghost use Rattle.std.specs.Prelude.{◌≡◌, ◌≤◌, chars, IfSome, if◌then◌else◌};
ghost use Rattle.cn_phrase.specs.Hours.{half_of, hour_in, hour_by, hour_of_day, without_24};

use crate::phrase::Lead;
use crate::value::Time;
use cn_core::split_first_char;
use cn_find::is_one_of;

/// A part of the day that a word names.
#[derive(Debug, Copy, Clone, PartialEq, Eq)]
pub enum PartOfDay {
    /// 凌晨
    AfterMidnight,
    /// 早上, 上午
    Morning,
    /// 中午
    Noon,
    /// 下午, 午后
    Afternoon,
    /// 傍晚, 晚上
    Evening,
    /// 夜里, 深夜
    Night,
}

// One of two parts of the day.
fn either(is_first: bool, first: PartOfDay, second: PartOfDay) -> PartOfDay
    ensures { result ≡ if is_first then first else second }
{
    if is_first { first } else { second }
}

// The part of the day that a word of half a day names, by its first two characters.
#[tactic(auto, unfolding(crate::specs::Hours::half_of))]
fn half_of(text: &str) -> PartOfDay
    ensures { result ≡ half_of (chars text.now) }
{
    let Some((c, rest)) = split_first_char(text) else {
        return PartOfDay::Evening;
    };
    let Some((d, _)) = split_first_char(rest) else {
        return PartOfDay::Evening;
    };
    if is_one_of(&['凌'], c) {
        PartOfDay::AfterMidnight
    } else if is_one_of(&['早', '清', '上'], c) {
        PartOfDay::Morning
    } else if is_one_of(&['中', '正'], c) {
        PartOfDay::Noon
    } else if is_one_of(&['下'], c) {
        PartOfDay::Afternoon
    } else if is_one_of(&['午'], c) {
        either(is_one_of(&['夜'], d), PartOfDay::Night, PartOfDay::Afternoon)
    } else if is_one_of(&['今', '明', '昨', '当', '當'], c) {
        either(
            is_one_of(&['早', '晨'], d),
            PartOfDay::Morning,
            PartOfDay::Evening,
        )
    } else {
        either(
            is_one_of(&['深', '半', '夜'], c),
            PartOfDay::Night,
            PartOfDay::Evening,
        )
    }
}

// The hour of 24, of an hour from 1 to 12 in a part of the day.
fn hour_in(part: PartOfDay, hour: u8) -> Option<u8>
    requires { hour ≤ 12 }
    ensures value { result ≡ hour_in part hour }
    ensures bound { IfSome result (λ h. h ≤ 24) }
{
    match part {
        PartOfDay::AfterMidnight => Some(if hour == 12 { 0 } else { hour }),
        PartOfDay::Morning => Some(hour),
        PartOfDay::Noon => Some(if hour <= 2 { hour + 12 } else { hour }),
        PartOfDay::Afternoon => Some(if hour == 12 { 12 } else { hour + 12 }),
        PartOfDay::Evening => { if hour <= 4 { None } else { Some(hour + 12) } }
        PartOfDay::Night => Some(if hour <= 4 { hour } else { hour + 12 }),
    }
}

// The hour of 24, of any hour, given the word of half a day with which a text begins.
fn hour_by(lead: Lead, text: &str, hour: u8) -> Option<u8>
    ensures value { result ≡ hour_by lead (chars text.now) hour }
{
    if hour == 0 || hour > 12 {
        return Some(hour);
    }
    match lead {
        Lead::HalfDay => hour_in(half_of(text), hour),
        _ => None,
    }
}

// 24 is 0, except at 24:00.
fn without_24(time: Time, hour: u8) -> u8
    ensures { result ≡ without_24 time hour }
{
    if hour == 24 && !(time.minute == 0 && time.second == 0) {
        0
    } else {
        hour
    }
}

/// The hour of 24 of a time with which a text begins; `None` if it is not known.
pub fn hour_of_day(lead: Lead, text: &str, time: Time) -> Option<u8>
    ensures { result ≡ hour_of_day lead (chars text.now) time }
{
    match hour_by(lead, text, time.hour) {
        Some(hour) => Some(without_24(time, hour)),
        None => None,
    }
}
