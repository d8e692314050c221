// A phrase in figures: its numbers change, and its words stay.
ghost use Rattle.std.specs.Prelude.{◌≡◌, chars, is_some, IfOk, OnOk};
ghost use Rattle.std.specs.Option.{option_map};
ghost use Rattle.cn_core.specs.declared.method.ChineseCountMethod.TheVariants.{TenThousand};
ghost use Rattle.cn_replace.specs.Kept.{kept_text};
ghost use Rattle.cn_phrase.specs.Pieces.{reading_of};
ghost use Rattle.cn_phrase.specs.Suffix.{EndsWith};
ghost use Rattle.cn_phrase.specs.Written.{number_text, passed_text, piece_text, pieces_text, slot_text};

use crate::piece::{Numeral, Piece, Progress, without_blank};
use crate::shape::Shape;
use cn_core::ChineseCountMethod;
use cn_replace::Sink;
use cn_replace::kept::put_kept;
use cn_replace::nothing::Nothing;
use cn_replace::numbers::put_same;
use cn_replace::pieces::{Figure, any, before_rest, split_leading};

// Whether a number has a text in the kept style.
fn is_kept(number: &str) -> bool
    ensures { result ≡ is_some (kept_text TenThousand (chars number.now)) }
{
    match put_kept(&mut Nothing {}, ChineseCountMethod::TenThousand, number) {
        Ok(is_kept) => is_kept,
        Err(never) => match never {},
    }
}

// Writes the new text of a number.
fn put_number<S: Sink>(sink: &mut S, number: &str) -> Result<(), S::Error>
    ensures { OnOk result (S.took sink.old sink.new (number_text (chars number.now))) }
{
    if any(Figure, number) {
        return put_same(sink, number);
    }
    if !is_kept(number) {
        return put_same(sink, number);
    }
    put_kept(sink, ChineseCountMethod::TenThousand, number)?;
    Ok(())
}

/// Writes the characters of a text before one of its suffixes.
pub fn put_passed<S: Sink>(sink: &mut S, text: &str, rest: &str) -> Result<(), S::Error>
    requires { EndsWith (chars text.now) (chars rest.now) }
    ensures { OnOk result
        (S.took sink.old sink.new (passed_text (chars text.now) (chars rest.now))) }
{
    put_same(sink, before_rest(text, rest))
}

// Writes the new text of a slot.
fn put_slot<S: Sink>(sink: &mut S, after_figure: bool, text: &str) -> Result<(), S::Error>
    ensures { OnOk result (S.took sink.old sink.new (slot_text after_figure (chars text.now))) }
{
    let start = without_blank(after_figure, text);
    put_passed(sink, text, start)?;
    let (number, _) = split_leading(Numeral, start);
    put_number(sink, number)
}

// Writes the new text of a piece, given what was read before it and after it.
fn put_piece<S: Sink>(
    sink: &mut S,
    piece: Piece,
    progress: Progress<'_>,
    next: Progress<'_>,
) -> Result<(), S::Error>
    requires { EndsWith (chars progress.rest.now) (chars next.rest.now) }
    ensures { OnOk result (S.took sink.old sink.new
        (piece_text piece (reading_of progress.entry) (reading_of next.entry))) }
{
    match piece {
        Piece::Slot(Shape::Quarter) => put_passed(sink, progress.rest, next.rest),
        Piece::Slot(_) => put_slot(sink, progress.after_figure, progress.rest),
        Piece::Fixed(_) => put_passed(sink, progress.rest, next.rest),
        Piece::NotBefore(_) | Piece::End => Ok(()),
    }
}

/// Writes the new text of some pieces.
pub fn put_pieces<S: Sink>(
    sink: &mut S,
    pieces: &[Piece],
    progress: Progress<'_>,
) -> Result<(), S::Error>
    ensures { OnOk result (S.took sink.old sink.new
        (pieces_text pieces.now (reading_of progress.entry))) }
{
    let mut read = progress;
    let mut count = 0;
    'writing: while count < pieces.len() {
        let Some(next) = pieces[count].after(read) else {
            return Ok(());
        };
        put_piece(sink, pieces[count], read, next)?;
        read = next;
        count += 1;
    }
    Ok(())
}
