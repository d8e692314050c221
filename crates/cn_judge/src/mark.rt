// The mark of a character, found by one table look-up without a search.
ghost use Rattle.std.specs.Prelude.{◌≡◌, ℕ, ◌*◌, ◌/◌, ◌%◌, ◌≤◌, ◌<◌, slice_index_or, MatchOption};
ghost use Rattle.cn_core.specs.Mark.{mark_of};
ghost use Rattle.cn_judge.specs.Marked.{IsKnown, IsUnknown, key_of, marked};

use cn_core::Unit;

/// A digit by its value, a unit, or any other character.
#[derive(Copy, Clone)]
pub enum Mark {
    Digit(u8),
    Unit(Unit),
    Other,
}

// The characters of digits and units whose UTF-8 is three bytes long, each with its mark at its
// slot. The key is the three bytes, with the first byte lowest. 無, which is neither digit nor unit,
// fills the empty slots.
// `python3 checks/tables.py crates` prints this table.
static MARKS: [(u32, Mark); 128] = [
    (0x9fbbe4, Mark::Unit(Unit::Qian)), // 仟
    (0x838de5, Mark::Unit(Unit::Qian)), // 千
    (0xa184e7, Mark::Other), // 無
    (0x818fe5, Mark::Digit(3)), // 叁
    (0x8682e8, Mark::Digit(4)), // 肆
    (0xa184e7, Mark::Other), // 無
    (0x8484e5, Mark::Unit(Unit::Yi)), // 億
    (0xa184e7, Mark::Other), // 無
    (0xa184e7, Mark::Other), // 無
    (0xa184e7, Mark::Other), // 無
    (0xacbae4, Mark::Unit(Unit::Jing)), // 京
    (0xa184e7, Mark::Other), // 無
    (0xbe99e7, Mark::Unit(Unit::Bai)), // 百
    (0xa184e7, Mark::Other), // 無
    (0xa7b6e6, Mark::Unit(Unit::Jian)), // 涧
    (0x838fe5, Mark::Digit(3)), // 參
    (0xa184e7, Mark::Other), // 無
    (0xa184e7, Mark::Other), // 無
    (0xa184e7, Mark::Other), // 無
    (0xa184e7, Mark::Other), // 無
    (0xa184e7, Mark::Other), // 無
    (0xa184e7, Mark::Other), // 無
    (0x8dbce4, Mark::Digit(5)), // 伍
    (0xa184e7, Mark::Other), // 無
    (0xa184e7, Mark::Other), // 無
    (0xa184e7, Mark::Other), // 無
    (0x8685e5, Mark::Unit(Unit::Zhao)), // 兆
    (0xa184e7, Mark::Other), // 無
    (0xa184e7, Mark::Other), // 無
    (0xa184e7, Mark::Other), // 無
    (0xa184e7, Mark::Other), // 無
    (0xa184e7, Mark::Other), // 無
    (0xa184e7, Mark::Other), // 無
    (0xa184e7, Mark::Other), // 無
    (0x929fe6, Mark::Digit(7)), // 柒
    (0xa184e7, Mark::Other), // 無
    (0xa184e7, Mark::Other), // 無
    (0xa184e7, Mark::Other), // 無
    (0xbe8be6, Mark::Unit(Unit::Shi)), // 拾
    (0xa184e7, Mark::Other), // 無
    (0xb0a9e7, Mark::Unit(Unit::Rang)), // 穰
    (0xa184e7, Mark::Other), // 無
    (0xa184e7, Mark::Other), // 無
    (0x8699e9, Mark::Digit(6)), // 陆
    (0xa184e7, Mark::Other), // 無
    (0xa184e7, Mark::Other), // 無
    (0xa184e7, Mark::Other), // 無
    (0xa184e7, Mark::Other), // 無
    (0xa184e7, Mark::Other), // 無
    (0xa184e7, Mark::Other), // 無
    (0xa184e7, Mark::Other), // 無
    (0xa3ade6, Mark::Unit(Unit::Zheng)), // 正
    (0xa184e7, Mark::Other), // 無
    (0xa184e7, Mark::Other), // 無
    (0xa985e5, Mark::Digit(2)), // 兩
    (0xa184e7, Mark::Other), // 無
    (0xa184e7, Mark::Other), // 無
    (0xb0bde4, Mark::Unit(Unit::Bai)), // 佰
    (0x83b8e4, Mark::Digit(7)), // 七
    (0x8780e3, Mark::Digit(0)), // 〇
    (0xb3b2e8, Mark::Digit(2)), // 貳
    (0xa184e7, Mark::Other), // 無
    (0x9fb2e6, Mark::Unit(Unit::Gou)), // 沟
    (0xa184e7, Mark::Other), // 無
    (0x968ee7, Mark::Digit(9)), // 玖
    (0x8cbae4, Mark::Digit(2)), // 二
    (0xbfbae4, Mark::Unit(Unit::Yi)), // 亿
    (0xab85e5, Mark::Digit(8)), // 八
    (0xa184e7, Mark::Other), // 無
    (0xa184e7, Mark::Other), // 無
    (0xa184e7, Mark::Other), // 無
    (0xada7e7, Mark::Unit(Unit::Zi)), // 秭
    (0xa184e7, Mark::Other), // 無
    (0x828fe5, Mark::Digit(3)), // 参
    (0xa4b8e4, Mark::Digit(2)), // 两
    (0xbdbde8, Mark::Unit(Unit::Zai)), // 载
    (0xa184e7, Mark::Other), // 無
    (0xa184e7, Mark::Other), // 無
    (0xa184e7, Mark::Other), // 無
    (0xad85e5, Mark::Digit(6)), // 六
    (0xa184e7, Mark::Other), // 無
    (0xa184e7, Mark::Other), // 無
    (0xa184e7, Mark::Other), // 無
    (0x87b8e4, Mark::Unit(Unit::Wan)), // 万
    (0xa184e7, Mark::Other), // 無
    (0x8b80e5, Mark::Unit(Unit::Ge)), // 個
    (0x848fe5, Mark::Digit(3)), // 叄
    (0xa184e7, Mark::Other), // 無
    (0xa184e7, Mark::Other), // 無
    (0xac90e8, Mark::Unit(Unit::Wan)), // 萬
    (0xa184e7, Mark::Other), // 無
    (0xa184e7, Mark::Other), // 無
    (0xa184e7, Mark::Other), // 無
    (0xaeb2e8, Mark::Digit(2)), // 貮
    (0xa184e7, Mark::Other), // 無
    (0x89b8e4, Mark::Digit(3)), // 三
    (0xa184e7, Mark::Other), // 無
    (0x939ee5, Mark::Unit(Unit::Gai)), // 垓
    (0xa184e7, Mark::Other), // 無
    (0x97bee6, Mark::Unit(Unit::Jian)), // 澗
    (0xa184e7, Mark::Other), // 無
    (0x9db9e4, Mark::Digit(9)), // 九
    (0xb899e9, Mark::Digit(6)), // 陸
    (0x80b8e4, Mark::Digit(1)), // 一
    (0xb69be9, Mark::Digit(0)), // 零
    (0xa184e7, Mark::Other), // 無
    (0xb5a5e6, Mark::Unit(Unit::Ji)), // 極
    (0xa184e7, Mark::Other), // 無
    (0x9dbae6, Mark::Unit(Unit::Gou)), // 溝
    (0xa184e7, Mark::Other), // 無
    (0xa184e7, Mark::Other), // 無
    (0xaab8e4, Mark::Unit(Unit::Ge)), // 个
    (0x819ee6, Mark::Unit(Unit::Ji)), // 极
    (0xa184e7, Mark::Other), // 無
    (0xa184e7, Mark::Other), // 無
    (0x94bae4, Mark::Digit(5)), // 五
    (0x818de5, Mark::Unit(Unit::Shi)), // 十
    (0xb9a3e5, Mark::Digit(1)), // 壹
    (0xa184e7, Mark::Other), // 無
    (0xa184e7, Mark::Other), // 無
    (0xb0b4e8, Mark::Digit(2)), // 贰
    (0xa184e7, Mark::Other), // 無
    (0x8c8de6, Mark::Digit(8)), // 捌
    (0xa184e7, Mark::Other), // 無
    (0xa184e7, Mark::Other), // 無
    (0x89bce8, Mark::Unit(Unit::Zai)), // 載
    (0x9b9be5, Mark::Digit(4)), // 四
    (0xa184e7, Mark::Other), // 無
];

// The entry at the slot of a key. No two digits or units share a slot.
#[inline(always)]
fn entry(key: u32) -> (u32, Mark)
    ensures { result ≡ slice_index_or MARKS (key * 953497 / 33554432 % 128) result }
{
    MARKS[(key as u64 * 953_497 / 33_554_432 % 128) as usize]
}

/// The mark of the character of three bytes with this key, if it is a digit or a unit.
#[inline(always)]
pub fn known_mark(key: u32) -> Option<Mark>
    ensures { MatchOption result (IsUnknown key) (IsKnown key) }
{
    let (known, mark) = entry(key);
    if known == key { Some(mark) } else { None }
}

/// The mark of the character of three bytes with this key.
#[inline(always)]
pub fn mark_of_key(key: u32) -> Mark
    ensures { (c : ℕ) → 2048 ≤ c → c < 65536 → key_of c ≡ key → marked result ≡ mark_of c }
{
    known_mark(key).unwrap_or(Mark::Other)
}

// The mark of a character of three bytes.
#[inline(always)]
fn three_byte_mark(c: char) -> Mark
    requires { (2048 ≤ c) × (c < 65536) }
    ensures { marked result ≡ mark_of c }
{
    let code = c as u32;
    let first = 224 + code / 64 / 64;
    let second = 128 + code / 64 % 64;
    let third = 128 + code % 64;
    mark_of_key(first + second * 256 + third * 65_536)
}

/// The mark of a character. The UTF-8 of each digit or unit, except an ASCII digit, is three bytes
/// long.
#[inline(always)]
pub fn mark_of(c: char) -> Mark
    ensures { marked result ≡ mark_of c }
{
    let code = c as u32;
    if 2048 <= code && code < 65_536 {
        return three_byte_mark(c);
    }
    if c.is_ascii_digit() {
        Mark::Digit((code - 48) as u8)
    } else {
        Mark::Other
    }
}
