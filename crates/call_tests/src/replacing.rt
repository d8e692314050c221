// Tests of expressions that are replaced: by stars, and by figures.
ghost use Rattle.std.specs.Prelude.{codes, Some, None, if◌then◌else◌, nat_lt, length};

use chinese_number::{
    ChineseCountMethod, Figures, Found, Included, Replacement, Sink, Style, Wanted,
    put_quantities_in_figures, quantities_to_figures, replace_quantities,
};
use std::test::Fail;

#[derive(Copy, Clone)]
struct ByStar;

impl Replacement for ByStar {
    ghost new = { λ r span. if nat_lt 3 (length span.text) then Some (codes "*") else None };

    fn put_new<S: Sink>(self, found: Found<'_>, sink: &mut S) -> Result<bool, S::Error> {
        if found.text.len() <= 3 {
            return Ok(false);
        }
        sink.put("*")?;
        Ok(true)
    }
}

#[test]
fn replaces_by_stars(rt: HostRuntime) -> Result<(), Fail> {
    let new = replace_quantities(rt.alloc(), "共3.5万元,一般占12.5%", Wanted::EVERYDAY, ByStar)?;
    assert_eq!(rt; new.as_str(), "共*元,一般占*");
    Ok(())
}

const METHOD: ChineseCountMethod = ChineseCountMethod::TenThousand;

// A text, and the same text in figures: by default, expanded, with canonical figures, and with
// everything included.
static IN_FIGURES: [[&str; 5]; 8] = [
    ["三千五百亿", "3500亿", "350000000000", "3500亿", "3500亿"],
    ["１２３，5万", "１２３，5万", "１２３，50000", "123，5万", "１２３，5万"],
    ["007，0.50", "007，0.50", "007，0.50", "7，0.50", "007，0.50"],
    ["一般十几人", "一般十几人", "一般十几人", "一般十几人", "1般10几人"],
    ["五一，八五折", "五一，八五折", "五一，八五折", "五一，八五折", "51，八五折"],
    ["十五天，二两", "15天，二两", "15天，二两", "15天，二两", "15天，2两"],
    ["二十十", "二十十", "二十十", "二十十", "二十十"],
    ["", "", "", "", ""],
];

// How the figures of each of these columns are written.
fn way_of(column: usize) -> Figures {
    let plain = Figures::DEFAULT;
    let included = Included {
        about: true,
        one_character: true,
        doubtful: true,
    };
    match column {
        1 => plain,
        2 => Figures {
            style: Style::Expanded,
            ..plain
        },
        3 => Figures {
            canonical: true,
            ..plain
        },
        _ => Figures { included, ..plain },
    }
}

// Whether a text in figures has the length of this one, and a buffer that is large enough begins
// with that text.
fn puts(buffer: &mut [u8], text: &str, figures: Figures, expected: &str) -> bool {
    let count = put_quantities_in_figures(buffer, text, Wanted::EVERYDAY, METHOD, figures);
    count == expected.len() && (count > buffer.len() || buffer.starts_with(expected.as_bytes()))
}

#[test]
fn puts_in_figures(rt: HostRuntime) -> Result<(), Fail> {
    for row in &IN_FIGURES {
        for column in 1..5usize {
            let (text, expected, figures) = (row[0], row[column], way_of(column));
            let new = quantities_to_figures(rt.alloc(), text, Wanted::EVERYDAY, METHOD, figures)?;
            assert_eq!(rt; new.as_str(), expected);
            assert!(rt; puts(&mut [7; 36], text, figures, expected));
            assert!(rt; puts(&mut [7], text, figures, expected));
        }
    }
    Ok(())
}
