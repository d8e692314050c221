// How numbers and words are spoken.
ghost use Rattle.std.specs.Prelude.{◌≡◌, ◌∷◌, [], chars, encode_utf8_all, OnOk};
ghost use Rattle.cn_speech.specs.Voice.{in_script, traditional, word};

use cn_core::{ChineseCountMethod, ChineseVariant, split_first_char};
use cn_replace::Sink;

/// The word for 1 in a code.
#[derive(Debug, Copy, Clone, Eq, PartialEq)]
pub enum One {
    /// 一, as in print.
    Yi,
    /// 幺, as people say it.
    Yao,
}

/// How numbers and words are spoken.
#[derive(Debug, Copy, Clone)]
pub struct Voice {
    /// The script of new characters.
    pub variant: ChineseVariant,
    /// The values of units from 亿 up.
    pub method: ChineseCountMethod,
    /// The word for 1 in a code.
    pub one: One,
}

// A character of a spoken word in the traditional script.
#[tactic(auto, unfolding(crate::specs::Voice::traditional))]
fn traditional(c: char) -> char
    ensures { result ≡ traditional c }
{
    match c {
        '点' => '點',
        '两' => '兩',
        '负' => '負',
        '摄' => '攝',
        '华' => '華',
        '吨' => '噸',
        '时' => '時',
        '钟' => '鐘',
        '纳' => '納',
        '兹' => '茲',
        '欧' => '歐',
        '号' => '號',
        '杠' => '槓',
        '镑' => '鎊',
        '约' => '約',
        '于' => '於',
        '贝' => '貝',
        '尔' => '爾',
        _ => c,
    }
}

/// A character of a spoken word in a script: 點 for 点 in the traditional one.
pub fn in_script(variant: ChineseVariant, c: char) -> char
    ensures { result ≡ in_script variant c }
{
    match variant {
        ChineseVariant::Simple => c,
        ChineseVariant::Traditional => traditional(c),
    }
}

/// Writes a character.
pub fn put_char<S: Sink>(sink: &mut S, c: char) -> Result<(), S::Error>
    ensures { OnOk result (S.took sink.old sink.new (encode_utf8_all (c ∷ []))) }
{
    let mut room = [0; 4];
    sink.put(c.encode_utf8(&mut room))
}

/// Writes a spoken word, which is given in simplified characters, in the script of the voice.
pub fn put_word<S: Sink>(sink: &mut S, voice: Voice, written: &str) -> Result<(), S::Error>
    ensures { OnOk result
        (S.took sink.old sink.new (encode_utf8_all (word voice (chars written.now)))) }
{
    let mut rest = written;
    'putting: while let Some((c, others)) = split_first_char(rest) {
        put_char(sink, in_script(voice.variant, c))?;
        rest = others;
    }
    Ok(())
}
