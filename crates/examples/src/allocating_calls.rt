// Makes each call that allocates memory once, and prints one line with its result: the text, or
// the name of the error.
//
// Each line makes one allocation, so that `tests/test_memory.py` can make them fail in turn. The
// last lines make none: they print the error for a number, quantity or date that is refused.
use chinese_number::ChineseCase::Lower;
use chinese_number::ChineseCountMethod::{High, Low, Middle, TenThousand};
use chinese_number::ChineseVariant::{Simple, Traditional};
use chinese_number::{
    AMOUNT_LIMIT, AmountForm, BillDate, ChineseCountMethod, ChineseVariant, Figures, InFigures,
    NumberToChinese, Quantity, QuantityForm, Style, Wanted,
};
use std::fmt::{Debug, Display};
use std::process::Abort;

// Prints the result of a call on a line. A text must be the one that is wanted.
fn show<E: Debug + Drop>(
    rt: &(impl Print + AllocGlobal + Abort),
    call: impl Display + Drop,
    wanted: &str,
    outcome: Result<String, E>,
) {
    let printed = match outcome {
        Ok(text) => {
            assert_eq!(rt; text.as_str(), wanted);
            println!(rt; "{call}: {text}")
        }
        Err(error) => println!(rt; "{call}: {error:?}"),
    };
    printed.expect(rt, "print");
}

// Prints a line for each of these printers, with its name and its result for a number.
macro_rules! show_each {
    ($rt:ident, $number:expr, $wanted:expr; $($printer:ident)+) => {
        $(
            let outcome = chinese_number::$printer($rt.alloc(), Traditional, Lower, $number);
            show($rt, stringify!($printer), $wanted, outcome);
        )+
    };
}

fn naive(rt: &(impl Print + AllocGlobal + Abort)) {
    show_each!(rt, 1, "一";
        from_u8_to_chinese_naive from_u16_to_chinese_naive from_u32_to_chinese_naive
        from_u64_to_chinese_naive from_u128_to_chinese_naive from_usize_to_chinese_naive
        from_i8_to_chinese_naive from_i16_to_chinese_naive from_i32_to_chinese_naive
        from_i64_to_chinese_naive from_i128_to_chinese_naive from_isize_to_chinese_naive
    );
}

fn low(rt: &(impl Print + AllocGlobal + Abort)) {
    show_each!(rt, 1, "一";
        from_u8_to_chinese from_u16_to_chinese from_u32_to_chinese_low from_u64_to_chinese_low
        from_u128_to_chinese_low from_usize_to_chinese_low from_i8_to_chinese from_i16_to_chinese
        from_i32_to_chinese_low from_i64_to_chinese_low from_i128_to_chinese_low
        from_isize_to_chinese_low
    );
}

fn ten_thousand(rt: &(impl Print + AllocGlobal + Abort)) {
    show_each!(rt, 1, "一";
        from_u32_to_chinese_ten_thousand from_u64_to_chinese_ten_thousand
        from_u128_to_chinese_ten_thousand from_usize_to_chinese_ten_thousand
        from_i32_to_chinese_ten_thousand from_i64_to_chinese_ten_thousand
        from_i128_to_chinese_ten_thousand from_isize_to_chinese_ten_thousand
    );
}

fn middle(rt: &(impl Print + AllocGlobal + Abort)) {
    show_each!(rt, 1, "一";
        from_u32_to_chinese_middle from_u64_to_chinese_middle from_u128_to_chinese_middle
        from_usize_to_chinese_middle from_i32_to_chinese_middle from_i64_to_chinese_middle
        from_i128_to_chinese_middle from_isize_to_chinese_middle
    );
}

fn high(rt: &(impl Print + AllocGlobal + Abort)) {
    show_each!(rt, 1, "一";
        from_u32_to_chinese_high from_u64_to_chinese_high from_u128_to_chinese_high
        from_usize_to_chinese_high from_i32_to_chinese_high from_i64_to_chinese_high
        from_i128_to_chinese_high from_isize_to_chinese_high
    );
}

// Prints a number with the trait, with units.
fn by_units<T: NumberToChinese>(
    rt: &(impl Print + AllocGlobal + Abort),
    name: &str,
    number: T,
    method: ChineseCountMethod,
    wanted: &str,
) {
    let outcome = number.to_chinese(rt.alloc(), Traditional, Lower, method);
    show(rt, format_args!("{name}.to_chinese"), wanted, outcome);
}

// Prints a number with the trait, as plain digits.
fn by_digits<T: NumberToChinese>(
    rt: &(impl Print + AllocGlobal + Abort),
    name: &str,
    number: T,
    wanted: &str,
) {
    let outcome = number.to_chinese_naive(rt.alloc(), Traditional, Lower);
    show(rt, format_args!("{name}.to_chinese_naive"), wanted, outcome);
}

// Makes each call of the trait for a number of one character.
fn by_trait<T: NumberToChinese>(
    rt: &(impl Print + AllocGlobal + Abort),
    name: &str,
    number: T,
    wanted: &str,
) {
    for method in ChineseCountMethod::variants() {
        by_units(rt, name, number, method, wanted);
    }
    by_digits(rt, name, number, wanted);
}

fn one_at_each_type(rt: &(impl Print + AllocGlobal + Abort)) {
    by_trait(rt, "u8", 1u8, "一");
    by_trait(rt, "u16", 1u16, "一");
    by_trait(rt, "u32", 1u32, "一");
    by_trait(rt, "u64", 1u64, "一");
    by_trait(rt, "u128", 1u128, "一");
    by_trait(rt, "usize", 1usize, "一");
    by_trait(rt, "i8", 1i8, "一");
    by_trait(rt, "i16", 1i16, "一");
    by_trait(rt, "i32", 1i32, "一");
    by_trait(rt, "i64", 1i64, "一");
    by_trait(rt, "i128", 1i128, "一");
    by_trait(rt, "isize", 1isize, "一");
}

// The greatest number that `Low` prints.
const MOST_BY_LOW: u64 = 9_999_999_999_999_999;

// The shortest and the longest texts, with the functions for each type and with the trait.
fn ends(rt: &(impl Print + AllocGlobal + Abort)) {
    show_each!(rt, 0, "零"; from_u8_to_chinese from_u8_to_chinese_naive);
    by_trait(rt, "u8", 0u8, "零");
    let wanted = "九極九載九正九澗九溝九穰九秭九垓九京九兆九億九萬九千九百九十九";
    show_each!(rt, MOST_BY_LOW, wanted; from_u64_to_chinese_low);
    by_units(rt, "u64", MOST_BY_LOW, Low, wanted);
    let wanted = "負一百七十澗一千四百一十一溝八千三百四十六穰零四百六十九秭\
        二千三百一十七垓三千一百六十八京七千三百零三兆七千一百五十八億八千四百一十萬五千七百二十八";
    show_each!(rt, i128::MIN, wanted; from_i128_to_chinese_ten_thousand);
    by_units(rt, "i128", i128::MIN, TenThousand, wanted);
    let wanted = "負一七零一四一一八三四六零四六九二三一七三一六八七三零三七一五八八四一零五七二八";
    show_each!(rt, i128::MIN, wanted; from_i128_to_chinese_naive);
    by_digits(rt, "i128", i128::MIN, wanted);
}

// The longest texts of the other two methods.
fn greatest(rt: &(impl Print + AllocGlobal + Abort)) {
    let wanted = "三百四十萬二千八百二十三垓六千六百九十二萬零九百三十八京四千六百三十四萬\
        六千三百三十七兆四千六百零七萬四千三百一十七億六千八百二十一萬一千四百五十五";
    show_each!(rt, u128::MAX, wanted; from_u128_to_chinese_middle);
    by_units(rt, "u128", u128::MAX, Middle, wanted);
    let wanted = "三百四十萬二千八百二十三京六千六百九十二萬零九百三十八億四千六百三十四萬\
        六千三百三十七兆四千六百零七萬四千三百一十七億六千八百二十一萬一千四百五十五";
    show_each!(rt, u128::MAX, wanted; from_u128_to_chinese_high);
    by_units(rt, "u128", u128::MAX, High, wanted);
}

// Writes a quantity in numerals.
fn numerals(rt: &(impl Print + AllocGlobal + Abort), quantity: Quantity, wanted: &str) {
    let alloc = rt.alloc();
    let outcome = chinese_number::quantity_to_chinese(
        alloc,
        Traditional,
        Lower,
        TenThousand,
        quantity,
    );
    show(rt, "quantity_to_chinese", wanted, outcome);
}

// Writes a quantity in figures.
fn figures(rt: &(impl Print + AllocGlobal + Abort), quantity: Quantity, wanted: &str) {
    let outcome = chinese_number::quantity_to_figures(rt.alloc(), quantity);
    show(rt, "quantity_to_figures", wanted, outcome);
}

// The quantity with the longest texts: each number has 39 digits, and no digit is 0.
const LONGEST_QUANTITY: Quantity = Quantity {
    numerator: -111_111_111_111_111_111_111_111_111_111_111_111_111,
    denominator: 211_111_111_111_111_111_111_111_111_111_111_111_111,
    form: QuantityForm::Fraction,
};

// The quantity with the shortest texts, which is a whole number.
const NONE: Quantity = Quantity {
    numerator: 0,
    denominator: 1,
    form: QuantityForm::Whole,
};

// These two, and a percentage.
fn quantities(rt: &(impl Print + AllocGlobal + Abort)) {
    numerals(rt, NONE, "零");
    figures(rt, NONE, "0");
    let percentage = Quantity {
        numerator: 1_250,
        denominator: 10_000,
        form: QuantityForm::Percent,
    };
    numerals(rt, percentage, "百分之十二點五零");
    figures(rt, percentage, "12.5%");
    let wanted = "負二百一十一澗一千一百一十一溝一千一百一十一穰一千一百一十一秭一千一百一十一垓\
        一千一百一十一京一千一百一十一兆一千一百一十一億一千一百一十一萬一千一百一十一分之\
        一百一十一澗一千一百一十一溝一千一百一十一穰一千一百一十一秭一千一百一十一垓\
        一千一百一十一京一千一百一十一兆一千一百一十一億一千一百一十一萬一千一百一十一";
    numerals(rt, LONGEST_QUANTITY, wanted);
    let wanted = "-111111111111111111111111111111111111111/\
        211111111111111111111111111111111111111";
    figures(rt, LONGEST_QUANTITY, wanted);
}

// Writes an amount of money.
fn amount(
    rt: &(impl Print + AllocGlobal + Abort),
    variant: ChineseVariant,
    fen: u64,
    wanted: &str,
) {
    let outcome = chinese_number::amount_to_chinese(rt.alloc(), variant, fen);
    show(rt, "amount_to_chinese", wanted, outcome);
}

// Writes an amount of money in the longest form.
fn amount_as(rt: &(impl Print + AllocGlobal + Abort), fen: u64, wanted: &str) {
    let outcome = chinese_number::amount_to_chinese_as(rt.alloc(), Traditional, LONGEST, fen);
    show(rt, "amount_to_chinese_as", wanted, outcome);
}

// Writes an amount of money that may be below zero, in the longest form.
fn signed_amount(rt: &(impl Print + AllocGlobal + Abort), fen: i64, wanted: &str) {
    let outcome = chinese_number::signed_amount_to_chinese(rt.alloc(), Traditional, LONGEST, fen);
    show(rt, "signed_amount_to_chinese", wanted, outcome);
}

// Writes an amount of a red invoice, in the longest form.
fn invoice_amount(rt: &(impl Print + AllocGlobal + Abort), fen: i64, wanted: &str) {
    let form = AmountForm {
        bracketed_sign: true,
        ..LONGEST
    };
    let outcome = chinese_number::signed_amount_to_chinese_as(rt.alloc(), Traditional, form, fen);
    show(rt, "signed_amount_to_chinese_as", wanted, outcome);
}

// The shortest amounts, the longest one and one between them, and those that are longest in a form,
// below zero, and after a sign in brackets.
fn amounts(rt: &(impl Print + AllocGlobal + Abort)) {
    amount(rt, Simple, 0, "零元整");
    amount(rt, Simple, 5, "伍分");
    amount(rt, Traditional, 140_950, "壹仟肆佰零玖元伍角整");
    let wanted = "玖仟玖佰玖拾玖萬玖仟玖佰玖拾玖億玖仟玖佰玖拾玖萬玖仟玖佰玖拾玖元玖角玖分";
    amount(rt, Traditional, AMOUNT_LIMIT - 1, wanted);
    let wanted = "人民幣玖仟玖佰玖拾玖萬玖仟玖佰玖拾玖億玖仟玖佰玖拾玖萬玖仟玖佰玖拾玖元玖角玖分";
    amount_as(rt, AMOUNT_LIMIT - 1, wanted);
    let wanted = "負人民幣玖仟玖佰玖拾玖萬玖仟玖佰玖拾玖億玖仟玖佰玖拾玖萬玖仟玖佰玖拾玖元玖角玖分";
    signed_amount(rt, -999_999_999_999_999_999, wanted);
    let wanted = "（負數）人民幣玖仟玖佰玖拾玖萬玖仟玖佰玖拾玖億玖仟玖佰玖拾玖萬玖仟玖佰玖拾玖元\
        玖角玖分";
    invoice_amount(rt, -999_999_999_999_999_999, wanted);
}

// Writes a date, given its year, month and day.
fn date(
    rt: &(impl Print + AllocGlobal + Abort),
    variant: ChineseVariant,
    (year, month, day): (u16, u8, u8),
    wanted: &str,
) {
    let date = BillDate { year, month, day };
    let outcome = chinese_number::date_to_chinese(rt.alloc(), variant, date);
    show(rt, "date_to_chinese", wanted, outcome);
}

// The shortest date and the longest one.
fn dates(rt: &(impl Print + AllocGlobal + Abort)) {
    date(rt, Simple, (1, 3, 21), "壹年叁月贰拾壹日");
    date(rt, Traditional, (9999, 12, 31), "玖玖玖玖年壹拾貳月參拾壹日");
}

// Texts whose quantities are written in figures of the same number of bytes.
fn in_figures(rt: &(impl Print + AllocGlobal + Abort)) {
    let (everyday, method) = (Wanted::EVERYDAY, TenThousand);
    let figures = Figures {
        style: Style::Expanded,
        ..Figures::DEFAULT
    };
    let alloc = rt.alloc();
    let outcome = chinese_number::quantities_to_figures(alloc, "十萬", everyday, method, figures);
    show(rt, "quantities_to_figures", "100000", outcome);
    let figures = InFigures { method, figures };
    let outcome = chinese_number::replace_quantities(alloc, "共十萬人", everyday, figures);
    show(rt, "replace_quantities", "共100000人", outcome);
}

// The longest form: 圓 has as many bytes as 元, and 正 as many as 整.
const LONGEST: AmountForm = AmountForm {
    currency: true,
    ..AmountForm::PLAIN
};

// The calls that return an error before they allocate memory. No text is wanted.
fn refused(rt: &(impl Print + AllocGlobal + Abort)) {
    show_each!(rt, MOST_BY_LOW + 1, ""; from_u64_to_chinese_low);
    show_each!(rt, -10_000_000_000_000_000, ""; from_i64_to_chinese_low);
    by_units(rt, "u64", MOST_BY_LOW + 1, Low, "");
    let by_zero = Quantity {
        denominator: 0,
        ..NONE
    };
    numerals(rt, by_zero, "");
    amount(rt, Simple, AMOUNT_LIMIT, "");
    amount_as(rt, AMOUNT_LIMIT, "");
    signed_amount(rt, -1_000_000_000_000_000_000, "");
    invoice_amount(rt, -1_000_000_000_000_000_000, "");
    date(rt, Simple, (2025, 2, 30), "");
}

#[test]
fn each_call(rt: HostRuntime) {
    naive(&rt);
    low(&rt);
    ten_thousand(&rt);
    middle(&rt);
    high(&rt);
    one_at_each_type(&rt);
    ends(&rt);
    greatest(&rt);
    quantities(&rt);
    amounts(&rt);
    dates(&rt);
    in_figures(&rt);
    refused(&rt);
}
