ghost use Rattle.std.specs.Prelude.{◌≡◌, pos, MatchOption};
ghost use Rattle.chinese_number.specs.Spans.{span_of};
ghost use Rattle.examples.specs.Chapters.{names_chapter, HasChapter, NoChapter};

use chinese_number::{ChineseCountMethod, Found, Wanted, find_numbers};

// Whether a number is between 第 and 回.
fn names_chapter(found: Found<'_>) -> bool
    ensures { result ≡ names_chapter (span_of found.entry) }
{
    found.before.ends_with("第") && found.after.starts_with("回")
}

/// The number of the first chapter that a line names, as in 第二十三回, and that can be read;
/// `None` if there is none.
pub fn chapter_number(line: &str) -> Option<u16>
    ensures { MatchOption result (NoChapter Wanted.EVERYDAY line.now)
        (λ n. HasChapter Wanted.EVERYDAY line.now (pos n)) }
{
    for found in find_numbers(line, Wanted::EVERYDAY) {
        if names_chapter(found) {
            if let Ok(number) = found.number(ChineseCountMethod::TenThousand) {
                return Some(number);
            }
        }
    }
    None
}
