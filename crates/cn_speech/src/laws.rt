//! What callers can count on of a text as it is spoken, each as the contract of a function that does nothing.
ghost use Rattle.std.specs.Prelude.{◌≡◌, ℕ, List, false, chars, IsUtf8};
ghost use Rattle.cn_speech.specs.Joined.{has_figure};
ghost use Rattle.cn_speech.specs.Speech.{text_in_speech};

use crate::voice::Voice;
use cn_find::Wanted;

/// A text without figures stays as it is.
pub fn texts_without_figures_stay(wanted: Wanted, voice: Voice)
    ensures { (bytes : List ℕ) → IsUtf8 bytes → has_figure (chars bytes) ≡ false
        → text_in_speech voice wanted bytes ≡ bytes }
{}
