// Measures in Latin letters and signs, and how they are spoken.
ghost use Rattle.std.specs.Prelude.{◌≡◌, chars, map};
ghost use Rattle.std.specs.Option.{option_map};
ghost use Rattle.cn_speech.specs.Measures.{after_measure, first_measure, goes_on, is_degrees, is_letter, measure_at, measure_of, measures, number_sign, spoken_of};

use cn_codes::counted::without_blank;
use cn_codes::in_figures::Han;
use cn_codes::words::{after_word, begins_word};
use cn_core::split_first_char;
use cn_find::{begins_with, is_one_of};
use cn_replace::pieces::{CharTest, Letter, LetterOrFigure, begins};

/// A measure, as it is written and as it is spoken.
#[derive(Copy, Clone)]
pub struct Row {
    pub written: &'static str,
    pub spoken: &'static str,
}

/// What is spoken for a measure, and the text after the measure.
#[derive(Debug, Copy, Clone)]
pub struct Measure<'a> {
    pub spoken: &'static str,
    pub rest: &'a str,
}

// Whether a text goes on with a measure: 5km2, 5m/s.
fn goes_on(text: &str) -> bool
    ensures { result ≡ goes_on (chars text.now) }
{
    match split_first_char(text) {
        Some((c, rest)) => {
            LetterOrFigure.passes(c)
                || is_one_of(&['²', '³', '_'], c)
                || (is_one_of(&['/', '.', '-'], c) && begins(Letter, rest))
        }
        None => false,
    }
}

// Whether a measure is one letter.
fn is_letter(written: &str) -> bool
    ensures { result ≡ is_letter (chars written.now) }
{
    match split_first_char(written) {
        Some((c, rest)) => Letter.passes(c) && split_first_char(rest).is_none(),
        None => false,
    }
}

// The text after a measure with which a text begins, after a blank or not.
fn after_measure<'a>(after_blank: bool, written: &str, text: &'a str) -> Option<&'a str>
    ensures { option_map (λ rest. chars rest.now) result
        ≡ after_measure after_blank (chars written.now) (chars text.now) }
{
    let rest = after_word(written, text)?;
    if goes_on(rest) || (after_blank && is_letter(written)) {
        None
    } else {
        Some(rest)
    }
}

// The first of these measures with which a text begins.
fn first_measure<'a>(after_blank: bool, measures: &[Row], text: &'a str) -> Option<Measure<'a>>
    ensures { option_map spoken_of result
        ≡ first_measure after_blank (map measure_of measures.now) (chars text.now) }
{
    for row in measures {
        if let Some(rest) = after_measure(after_blank, row.written, text) {
            return Some(Measure {
                spoken: row.spoken,
                rest,
            });
        }
    }
    None
}

// The measures; of two with which a text begins, the longer one is first.
#[rattlefmt::skip]
const MEASURES: [Row; 88] = [
    Row { written: "ml/min", spoken: "毫升每分钟" },
    Row { written: "mmol/L", spoken: "毫摩尔每升" },
    Row { written: "μmol/L", spoken: "微摩尔每升" },
    Row { written: "L/min", spoken: "升每分钟" },
    Row { written: "g/cm³", spoken: "克每立方厘米" },
    Row { written: "kg/m³", spoken: "千克每立方米" },
    Row { written: "mg/kg", spoken: "毫克每千克" },
    Row { written: "mg/m³", spoken: "毫克每立方米" },
    Row { written: "μg/m³", spoken: "微克每立方米" },
    Row { written: "kcal", spoken: "千卡" },
    Row { written: "km/h", spoken: "千米每小时" },
    Row { written: "mg/L", spoken: "毫克每升" },
    Row { written: "mmHg", spoken: "毫米汞柱" },
    Row { written: "Mbps", spoken: "Mbps" },
    Row { written: "Gbps", spoken: "Gbps" },
    Row { written: "GHz", spoken: "吉赫兹" },
    Row { written: "MHz", spoken: "兆赫兹" },
    Row { written: "MPa", spoken: "兆帕" },
    Row { written: "cm²", spoken: "平方厘米" },
    Row { written: "cm³", spoken: "立方厘米" },
    Row { written: "g/L", spoken: "克每升" },
    Row { written: "hPa", spoken: "百帕" },
    Row { written: "kHz", spoken: "千赫兹" },
    Row { written: "kPa", spoken: "千帕" },
    Row { written: "kWh", spoken: "千瓦时" },
    Row { written: "km²", spoken: "平方千米" },
    Row { written: "m/s", spoken: "米每秒" },
    Row { written: "mAh", spoken: "毫安时" },
    Row { written: "min", spoken: "分钟" },
    Row { written: "GW", spoken: "吉瓦" },
    Row { written: "Hz", spoken: "赫兹" },
    Row { written: "MW", spoken: "兆瓦" },
    Row { written: "Pa", spoken: "帕" },
    Row { written: "cm", spoken: "厘米" },
    Row { written: "dB", spoken: "分贝" },
    Row { written: "dm", spoken: "分米" },
    Row { written: "kJ", spoken: "千焦" },
    Row { written: "kV", spoken: "千伏" },
    Row { written: "kW", spoken: "千瓦" },
    Row { written: "kg", spoken: "千克" },
    Row { written: "km", spoken: "千米" },
    Row { written: "mA", spoken: "毫安" },
    Row { written: "mL", spoken: "毫升" },
    Row { written: "mV", spoken: "毫伏" },
    Row { written: "mg", spoken: "毫克" },
    Row { written: "ml", spoken: "毫升" },
    Row { written: "mm", spoken: "毫米" },
    Row { written: "ms", spoken: "毫秒" },
    Row { written: "m²", spoken: "平方米" },
    Row { written: "m³", spoken: "立方米" },
    Row { written: "nm", spoken: "纳米" },
    Row { written: "°C", spoken: "摄氏度" },
    Row { written: "°F", spoken: "华氏度" },
    Row { written: "µg", spoken: "微克" },
    Row { written: "µm", spoken: "微米" },
    Row { written: "μg", spoken: "微克" },
    Row { written: "μm", spoken: "微米" },
    Row { written: "KB", spoken: "KB" },
    Row { written: "kB", spoken: "kB" },
    Row { written: "MB", spoken: "MB" },
    Row { written: "GB", spoken: "GB" },
    Row { written: "TB", spoken: "TB" },
    Row { written: "PB", spoken: "PB" },
    Row { written: "px", spoken: "px" },
    Row { written: "L", spoken: "升" },
    Row { written: "V", spoken: "伏" },
    Row { written: "W", spoken: "瓦" },
    Row { written: "g", spoken: "克" },
    Row { written: "h", spoken: "小时" },
    Row { written: "l", spoken: "升" },
    Row { written: "m", spoken: "米" },
    Row { written: "s", spoken: "秒" },
    Row { written: "t", spoken: "吨" },
    Row { written: "°", spoken: "度" },
    Row { written: "Ω", spoken: "欧姆" },
    Row { written: "℃", spoken: "摄氏度" },
    Row { written: "℉", spoken: "华氏度" },
    Row { written: "㎎", spoken: "毫克" },
    Row { written: "㎏", spoken: "千克" },
    Row { written: "㎜", spoken: "毫米" },
    Row { written: "㎝", spoken: "厘米" },
    Row { written: "㎞", spoken: "千米" },
    Row { written: "㎡", spoken: "平方米" },
    Row { written: "K", spoken: "K" },
    Row { written: "M", spoken: "M" },
    Row { written: "G", spoken: "G" },
    Row { written: "T", spoken: "T" },
    Row { written: "B", spoken: "B" },
];

// The first of the measures with which a text begins.
fn listed_measure(after_blank: bool, text: &str) -> Option<Measure<'_>>
    ensures { option_map spoken_of result
        ≡ first_measure after_blank measures (chars text.now) }
{
    first_measure(after_blank, &MEASURES, text)
}

// The sign # after a number, before a Han character or 、: 12#楼.
fn number_sign(text: &str) -> Option<Measure<'_>>
    ensures { option_map spoken_of result ≡ number_sign (chars text.now) }
{
    let (c, rest) = split_first_char(text)?;
    if is_one_of(&['#'], c) && (begins(Han, rest) || begins_with(&['、'], rest)) {
        Some(Measure { spoken: "号", rest })
    } else {
        None
    }
}

/// The measure with which the text after a number begins, perhaps after a blank: 千克 for kg.
pub fn measure_at(text: &str) -> Option<Measure<'_>>
    ensures { option_map spoken_of result ≡ measure_at (chars text.now) }
{
    match number_sign(text) {
        Some(measure) => Some(measure),
        None => listed_measure(begins_with(&[' '], text), without_blank(text)),
    }
}

/// Whether a measure is one of degrees, before which 2 is 二 and a minus sign 零下.
pub fn is_degrees(spoken: &str) -> bool
    ensures { result ≡ is_degrees (chars spoken.now) }
{
    begins_word("摄氏度", spoken) || begins_word("华氏度", spoken)
}
