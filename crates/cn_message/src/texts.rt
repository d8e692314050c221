// The texts of all messages, each in English, in simplified and in traditional Chinese. A name in
// braces is replaced:
//
//     {place}    the position of the character, counted from 1
//     {there}    the character at the place, in quotes
//     {after}    the next character that is not white space, in quotes
//     {new}      the character that a repair writes
//     {next}     the list of the characters that may come next
//     {example}  an example of what is read
//
// A sentence that only follows another one begins with a space in English.
//
// No contracts: tests/rows/messages.tsv tests the wording.
use crate::Language;

/// A sentence of a message.
#[derive(Debug, Clone, Copy, Eq, PartialEq)]
pub enum Sentence {
    // A repair of an amount, a date or figures.
    Missing,
    MissingAtEnd,
    Replace,
    Delete,

    // What is wrong without a repair, and what may come next.
    Wrong,
    Empty,
    Unfinished,
    Complete,
    Expected,
    Begins,
    GoesOn,
    Example,
    Commas,
    InFull,
    TwoDecimals,
    NoSuchDay,
    NoSuchMonth,
    YearDigits,
    SignFirst,
    NoSign,
    UnitOrder,
    AllCapitals,
    AmountTooLarge,

    // Why a text is not a number.
    NoNumber,
    TooLarge,
    TooSmall,
    NoDigitBefore,
    NotOfNumerals,
    NotADigit,
    NoUnitBetween,
    UnitsTogether,
    WrittenTwice,
    GeAlone,
    UnitAgain,

    // Why a text is not a quantity.
    OneMissing,
    AfterTen,
    AfterZero,
    Weight,
    TwoReadings,
    ZeroMissing,
    NoDenominator,
    NumberMissingAtEnd,
    SecondPoint,
    DigitsAfterPoint,

    // What the other statuses of a call mean.
    Incorrect,
    NotUtf8,
    SmallBuffer,
    NotHeld,
    UnknownCode,
    NoneLeft,
    NotADate,
    TooLong,
}

// The text in one language.
fn in_language(texts: [&'static str; 3], language: Language) -> &'static str {
    let [english, simplified, traditional] = texts;
    match language {
        Language::English => english,
        Language::Simplified => simplified,
        Language::Traditional => traditional,
    }
}

/// The text of a sentence.
pub fn sentence_text(sentence: Sentence, language: Language) -> &'static str {
    let texts = match sentence {
        Sentence::Missing => [
            "“{new}” is missing before character {place}, {there}.",
            "第{place}个字{there}前缺“{new}”。",
            "第{place}個字{there}前缺「{new}」。",
        ],
        Sentence::MissingAtEnd => [
            "“{new}” is missing at the end.",
            "末尾缺“{new}”。",
            "末尾缺「{new}」。",
        ],
        Sentence::Replace => [
            "Character {place}, {there}, should be “{new}”.",
            "第{place}个字{there}应为“{new}”。",
            "第{place}個字{there}應為「{new}」。",
        ],
        Sentence::Delete => [
            "Character {place}, {there}, should be deleted.",
            "第{place}个字{there}多余，应删去。",
            "第{place}個字{there}多餘，應刪去。",
        ],
        Sentence::Wrong => [
            "Character {place}, {there}, is not allowed here.",
            "第{place}个字{there}不能写在这里。",
            "第{place}個字{there}不能寫在這裡。",
        ],
        Sentence::Empty => ["Nothing is written yet.", "还没有填写。", "還沒有填寫。"],
        Sentence::Unfinished => ["Not finished yet.", "还没写完。", "還沒寫完。"],
        Sentence::Complete => [
            " The text before it is complete: delete the rest if it does not belong here.",
            "它前面已经写完整；后面如果多余，请删去。",
            "它前面已經寫完整；後面如果多餘，請刪去。",
        ],
        Sentence::Expected => [" Allowed here: {next}.", "这里可以写：{next}。", "這裡可以寫：{next}。"],
        Sentence::Begins => [
            " It can begin with: {next}.",
            "开头可以写：{next}。",
            "開頭可以寫：{next}。",
        ],
        Sentence::GoesOn => [
            " It can continue with: {next}.",
            "后面可以写：{next}。",
            "後面可以寫：{next}。",
        ],
        Sentence::Example => [
            " Write it like this: {example}.",
            "写法如：{example}。",
            "寫法如：{example}。",
        ],
        Sentence::Commas => [
            " Use “.” before decimals, and a comma only between groups of three digits, as in 1,409.50.",
            "小数点用“.”，逗号只用作千位分隔，如 1,409.50。",
            "小數點用「.」，逗號只用作千位分隔，如 1,409.50。",
        ],
        Sentence::InFull => [
            " Write the whole amount in figures, as in 1,409.50.",
            "请把金额全部用数字写出，如 1,409.50。",
            "請把金額全部用數字寫出，如 1,409.50。",
        ],
        Sentence::TwoDecimals => [
            " At most two decimals are allowed, jiao and fen.",
            "最多写到分（两位小数）。",
            "最多寫到分（兩位小數）。",
        ],
        Sentence::NoSuchDay => [" The month has no such day.", "这个月没有这一天。", "這個月沒有這一天。"],
        Sentence::NoSuchMonth => [" There is no such month.", "没有这个月份。", "沒有這個月份。"],
        Sentence::YearDigits => [
            " The year is written digit by digit, as in 贰零贰陆年.",
            "年份要逐个写数字，如贰零贰陆年。",
            "年份要逐個寫數字，如貳零貳陸年。",
        ],
        Sentence::NoSign => [
            " An amount below zero is not accepted here.",
            "这里不能写负数金额。",
            "這裡不能寫負數金額。",
        ],
        Sentence::UnitOrder => [
            " Units are written from great to small, as in 叁仟肆佰.",
            "单位从大到小写，如叁仟肆佰。",
            "單位從大到小寫，如參仟肆佰。",
        ],
        Sentence::AllCapitals => [
            " All digits and units must be written as capitals, such as 壹 and 佰.",
            "其余的数字和单位也都要大写。",
            "其餘的數字和單位也都要大寫。",
        ],
        Sentence::SignFirst => [
            " The sign is written at the very beginning.",
            "表示负数的字或符号要写在最前面。",
            "表示負數的字或符號要寫在最前面。",
        ],
        Sentence::AmountTooLarge => [
            "The amount is too large: at most 16 digits are allowed before the decimal point.",
            "金额太大，元以上最多16位。",
            "金額太大，元以上最多16位。",
        ],
        Sentence::NoNumber => ["A number is missing.", "缺少数字。", "缺少數字。"],
        Sentence::TooLarge => ["The number is too large.", "数值太大。", "數值太大。"],
        Sentence::TooSmall => ["The number is too small.", "数值太小。", "數值太小。"],
        Sentence::NoDigitBefore => [
            "A digit is missing before character {place}, {there}.",
            "第{place}个字{there}前缺数字。",
            "第{place}個字{there}前缺數字。",
        ],
        Sentence::NotOfNumerals => [
            "Character {place}, {there}, cannot be part of a numeral.",
            "第{place}个字{there}不是数字用字。",
            "第{place}個字{there}不是數字用字。",
        ],
        Sentence::NotADigit => [
            "Character {place}, {there}, is not a digit from 0 to 9.",
            "第{place}个字{there}不是零到九的数字。",
            "第{place}個字{there}不是零到九的數字。",
        ],
        Sentence::NoUnitBetween => [
            "A unit is missing between character {place}, {there}, and {after}, or one of them \
             is too many.",
            "第{place}个字{there}和后面的{after}之间缺单位，或多写了一个。",
            "第{place}個字{there}和後面的{after}之間缺單位，或多寫了一個。",
        ],
        Sentence::UnitsTogether => [
            "Character {place}, {there}, cannot be followed by {after}: a digit is missing \
             between them, one of them is too many, or their order is wrong.",
            "第{place}个字{there}后面不能写{after}：中间缺数字，或多写了一个，或顺序不对。",
            "第{place}個字{there}後面不能寫{after}：中間缺數字，或多寫了一個，或順序不對。",
        ],
        Sentence::WrittenTwice => [
            "Character {place}, {there}, is written twice.",
            "第{place}个字{there}写了两次。",
            "第{place}個字{there}寫了兩次。",
        ],
        Sentence::GeAlone => [
            "Character {place}, {there}, is only allowed before a greater unit, as in 三个亿.",
            "第{place}个字{there}后面要写更大的单位，如“三个亿”。",
            "第{place}個字{there}後面要寫更大的單位，如「三個億」。",
        ],
        Sentence::UnitAgain => [
            "After character {place}, {there}, the same unit is written again.",
            "第{place}个字{there}后面又写了同样的单位。",
            "第{place}個字{there}後面又寫了同樣的單位。",
        ],
        Sentence::OneMissing => [
            "“一” is missing before character {place}, {there}.",
            "第{place}个字{there}前缺“一”。",
            "第{place}個字{there}前缺「一」。",
        ],
        Sentence::AfterTen => [
            "Character {place}, {there}, cannot follow 十.",
            "第{place}个字{there}不能写在“十”后面。",
            "第{place}個字{there}不能寫在「十」後面。",
        ],
        Sentence::AfterZero => [
            "Character {place}, {there}, cannot follow 零: a digit is missing between them.",
            "第{place}个字{there}不能写在“零”后面，中间缺数字。",
            "第{place}個字{there}不能寫在「零」後面，中間缺數字。",
        ],
        Sentence::Weight => [
            "Character {place}, {there}, is a unit of weight here, not a number.",
            "第{place}个字{there}在这里是重量单位，不是数字。",
            "第{place}個字{there}在這裡是重量單位，不是數字。",
        ],
        Sentence::TwoReadings => [
            "The number before character {place}, {there}, can be read in two ways: add a unit or 零, \
             as in 一百五十万 or 一百零五万.",
            "第{place}个字{there}前面的数有两种读法：请补上单位或“零”，如一百五十万、一百零五万。",
            "第{place}個字{there}前面的數有兩種讀法：請補上單位或「零」，如一百五十萬、一百零五萬。",
        ],
        Sentence::ZeroMissing => [
            "“零” is missing before character {place}, {there}, or a unit such as 万 at the end.",
            "第{place}个字{there}前缺“零”，或末尾缺“万”等单位。",
            "第{place}個字{there}前缺「零」，或末尾缺「萬」等單位。",
        ],
        Sentence::NoDenominator => [
            "The denominator must be a whole number above 0.",
            "分母必须是大于零的整数。",
            "分母必須是大於零的整數。",
        ],
        Sentence::NumberMissingAtEnd => ["A number is missing at the end.", "末尾缺数字。", "末尾缺數字。"],
        Sentence::SecondPoint => [
            "Character {place}, {there}, is a second decimal point.",
            "第{place}个字{there}是第二个小数点。",
            "第{place}個字{there}是第二個小數點。",
        ],
        Sentence::DigitsAfterPoint => [
            "After character {place}, {there}, the digits are written one by one, as in 二点一五.",
            "第{place}个字{there}后面要逐个写数字，如“二点一五”。",
            "第{place}個字{there}後面要逐個寫數字，如「二點一五」。",
        ],
        Sentence::Incorrect => ["The text is not correct.", "写法不对。", "寫法不對。"],
        Sentence::NotUtf8 => [
            "The bytes are not text in UTF-8.",
            "不是 UTF-8 文本。",
            "不是 UTF-8 文字。",
        ],
        Sentence::SmallBuffer => ["The buffer is too small for the text.", "缓冲区太小。", "緩衝區太小。"],
        Sentence::NotHeld => [
            "The type cannot hold the number.",
            "该类型放不下这个数字。",
            "該型別放不下這個數字。",
        ],
        Sentence::UnknownCode => ["A code has no meaning.", "代码没有意义。", "代碼沒有意義。"],
        Sentence::NoneLeft => [
            "There is no further number in the text.",
            "文本里没有更多的数字。",
            "文字裡沒有更多的數字。",
        ],
        Sentence::NotADate => ["There is no such date.", "没有这个日期。", "沒有這個日期。"],
        Sentence::TooLong => ["The text is too long.", "文本太长。", "文字太長。"],
    };
    in_language(texts, language)
}

/// A character that cannot be seen.
#[derive(Clone, Copy)]
pub enum Name {
    Space,
    Invisible,
}

/// The name of such a character, which is written in place of the character in quotes.
pub fn name_text(name: Name, language: Language) -> &'static str {
    let texts = match name {
        Name::Space => ["a space", "（空格）", "（空格）"],
        Name::Invisible => ["an invisible character", "（不可见字符）", "（不可見字元）"],
    };
    in_language(texts, language)
}

/// What separates the characters of a list.
pub fn separator(language: Language) -> &'static str {
    in_language([", ", "、", "、"], language)
}

/// What is written before a character or a symbol, and after it.
pub fn quotes(language: Language) -> (&'static str, &'static str) {
    match language {
        Language::Traditional => ("「", "」"),
        _ => ("“", "”"),
    }
}

/// 人民币, of which a list shows all if 人 may come next.
pub fn renminbi(language: Language) -> &'static str {
    in_language(["人民币", "人民币", "人民幣"], language)
}
