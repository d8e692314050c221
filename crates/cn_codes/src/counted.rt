// Measure words, by their first character.
ghost use Rattle.std.specs.Prelude.{◌≡◌, chars};
ghost use Rattle.cn_codes.specs.Counted.{begins_counted, is_counted, is_counted_by_two, without_blank};

use crate::words::without_first;
use cn_core::split_first_char;
use cn_find::{begins_with, is_one_of};

/// Whether a character begins a measure word before which 2 is 两: 个, but not 月.
#[tactic(auto, unfolding(crate::specs::Counted::is_counted_by_two))]
pub fn is_counted_by_two(c: char) -> bool
    ensures { result ≡ is_counted_by_two c }
{
    is_one_of(
        &[
            '个', '個', '位', '名', '人', '口', '户', '戶', '家', '只', '隻', '头', '頭', '匹', '条', '條', '根',
            '支', '枝', '张', '張', '片', '块', '塊', '页', '頁', '本', '册', '冊', '份', '篇', '件', '套', '台',
            '臺', '辆', '輛', '架', '艘', '部', '间', '間', '项', '項', '种', '種', '样', '樣', '批', '对', '對',
            '双', '雙', '副', '次', '回', '场', '場', '遍', '趟', '轮', '輪', '天', '年', '周', '週', '岁', '歲',
            '晚', '夜', '小', '分', '秒', '元', '圆', '圓', '角', '毛', '米', '公', '千', '克', '斤', '吨', '噸',
            '升', '里', '尺', '寸', '亩', '畝', '平', '立', '厘', '釐', '毫', '微', '海', '英', '美', '欧', '歐',
            '港', '倍', '瓶', '杯', '碗', '盒', '箱', '包', '袋', '桶', '罐', '勺', '颗', '顆', '粒', '滴', '朵',
            '棵', '株', '封', '枚', '款', '门', '門', '节', '節', '组', '組', '队', '隊', '道', '成', '度', '点',
            '點', '国', '國', '球', '室', '厅', '廳', '课', '課', '顿', '頓', '餐', '声', '聲', '句', '步', '站',
            '集', '把', '剂', '劑', '例', '起', '笔', '筆', '股', '座', '汤', '湯', '茶', '瓣', '刻',
        ],
        c,
    )
}

/// Whether a character begins a measure word: 个, 月.
#[tactic(auto, unfolding(crate::specs::Counted::is_counted))]
pub fn is_counted(c: char) -> bool
    ensures { result ≡ is_counted c }
{
    is_counted_by_two(c)
        || is_one_of(
            &[
                '月', '日', '号', '號', '楼', '樓', '级', '級', '期', '折', '層', '层', '章', '段', '班', '线',
                '線', '路', '时', '時', '百', '万', '萬', '亿', '億', '字', '行', '手', '栋', '棟', '幢',
            ],
            c,
        )
}

/// A text without one blank at its start.
pub fn without_blank(text: &str) -> &str
    ensures { chars result.now ≡ without_blank (chars text.now) }
{
    if begins_with(&[' '], text) {
        without_first(text)
    } else {
        text
    }
}

/// Whether a text begins with a measure word, perhaps after a blank.
#[tactic(auto, unfolding(crate::specs::Counted::begins_counted))]
pub fn begins_counted(text: &str) -> bool
    ensures { result ≡ begins_counted (chars text.now) }
{
    match split_first_char(without_blank(text)) {
        Some((c, _)) => is_counted(c),
        None => false,
    }
}
