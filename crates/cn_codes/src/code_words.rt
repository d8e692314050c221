// The words after which, and before which, a number is a code.
ghost use Rattle.std.specs.Prelude.{◌≡◌, chars};
ghost use Rattle.cn_find.specs.Spans.{in_front};
ghost use Rattle.cn_codes.specs.CodeWords.{before_emergency, begins_after, begins_after_name, begins_century, begins_emergency, begins_generation, begins_of_year, begins_room, begins_route, begins_service, ends_building_unit, ends_emergency, ends_word_of_codes, follows_another, follows_building, follows_call, follows_word, is_called, is_generation, is_service, without_link, without_sign};

use crate::digits::{begins_any_number, has_count};
use crate::words::{begins_any, ends_any, without_any, without_first, without_last};
use cn_find::{begins_with, ends_with};

// A text without one sign at its end.
fn without_sign(before: &str) -> &str
    ensures { in_front result.now ≡ without_sign (in_front before.now) }
{
    if ends_with(&['：', ':', '；', ';', ' '], before) {
        without_last(before)
    } else {
        before
    }
}

// A text without a link at its end.
fn without_link(before: &str) -> &str
    ensures { in_front result.now ≡ without_link (in_front before.now) }
{
    without_any(
        &["设置为", "設置為", "设为", "設為", "改为", "改為", "为", "為", "是"],
        before,
    )
}

// Whether a text ends with a word of codes.
#[rattlefmt::skip]
fn ends_word_of_codes(before: &str) -> bool
    ensures { result ≡ ends_word_of_codes (in_front before.now) }
{
    ends_any(
        &[
            "电话", "電話", "手机", "手機", "座机", "座機", "号码", "號碼", "热线", "熱線", "专线",
            "專線", "客服", "传真", "傳真", "拨打", "撥打", "请拨", "請撥", "致电", "致電", "分机",
            "分機", "转", "轉", "区号", "區號", "验证码", "驗證碼", "校验码", "校驗碼", "提取码",
            "提取碼", "取件码", "取件碼", "取餐码", "取餐碼", "邀请码", "邀請碼", "动态码",
            "動態碼", "识别码", "識別碼", "邮政编码", "郵政編碼", "密码", "密碼", "代码", "代碼",
            "邮编", "郵編", "编号", "編號", "单号", "單號", "订单", "訂單", "卡号", "卡號", "账号",
            "賬號", "帐号", "帳號", "尾号", "尾號", "学号", "學號", "工号", "工號", "票号", "票號",
            "证号", "證號", "批号", "批號", "房号", "房號", "房间号", "房間號", "机号", "機號",
            "序列号", "序列號", "流水号", "流水號", "端口", "端口号", "端口號", "后四位", "後四位",
            "末四位", "版本号", "版本號", "车次", "車次", "群号", "群號", "QQ", "QQ号", "QQ號",
        ],
        before,
    )
}

/// Whether a word of codes ends a text, perhaps with a link and a sign after it.
#[tactic(auto, unfolding(crate::specs::CodeWords::follows_word))]
pub fn follows_word(before: &str) -> bool
    ensures { result ≡ follows_word (in_front before.now) }
{
    ends_word_of_codes(without_link(without_sign(before)))
}

// Whether a run begins with the number of a service.
fn begins_service(run: &str) -> bool
    ensures { result ≡ begins_service (chars run.now) }
{
    begins_any_number(
        &[
            "10010", "10086", "12123", "12306", "12315", "12333", "12345", "12348", "12366",
            "12388", "95588",
        ],
        run,
    )
}

/// Whether a run is the number of a service: 10086.
#[tactic(auto, unfolding(crate::specs::CodeWords::is_service))]
pub fn is_service(run: &str) -> bool
    ensures { result ≡ is_service (chars run.now) }
{
    has_count(5, run) && begins_service(run)
}

// Whether a text ends with 打, 拨 or 叫.
#[tactic(auto, unfolding(crate::specs::CodeWords::follows_call))]
fn follows_call(before: &str) -> bool
    ensures { result ≡ follows_call (in_front before.now) }
{
    ends_with(&['打', '拨', '撥', '叫'], before)
}

// The numbers to call for help.
const EMERGENCIES: &[&str] = &["110", "112", "114", "119", "120", "122"];

// Whether a run begins with a number to call for help.
fn begins_emergency(run: &str) -> bool
    ensures { result ≡ begins_emergency (chars run.now) }
{
    begins_any_number(EMERGENCIES, run)
}

// Whether a text ends with a number to call for help.
fn ends_emergency(before: &str) -> bool
    ensures { result ≡ ends_emergency (in_front before.now) }
{
    ends_any(EMERGENCIES, before)
}

// The text before a number to call for help.
fn before_emergency(before: &str) -> &str
    ensures { in_front result.now ≡ before_emergency (in_front before.now) }
{
    without_any(EMERGENCIES, before)
}

// Whether a text ends with 打, a number to call for help and 或.
fn follows_another(before: &str) -> bool
    ensures { result ≡ follows_another (in_front before.now) }
{
    let front = without_last(before);
    ends_with(&['或', '和', '、'], before)
        && ends_emergency(front)
        && follows_call(before_emergency(front))
}

/// Whether a run is a number to call for help, after 打, or after 打, another one and 或.
#[tactic(auto, unfolding(crate::specs::CodeWords::is_called))]
pub fn is_called(before: &str, run: &str) -> bool
    ensures { result ≡ is_called (in_front before.now) (chars run.now) }
{
    has_count(3, run) && begins_emergency(run) && (follows_call(before) || follows_another(before))
}

/// Whether a text begins with a word before which three or four figures are a room, a road or a flight.
pub fn begins_room(text: &str) -> bool
    ensures { result ≡ begins_room (chars text.now) }
{
    begins_any(
        &[
            "室",
            "房",
            "号房",
            "號房",
            "教室",
            "病房",
            "包厢",
            "包廂",
            "包间",
            "包間",
            "会议室",
            "會議室",
            "国道",
            "國道",
            "省道",
            "县道",
            "縣道",
            "航班",
        ],
        text,
    )
}

// Whether a text ends with 单元.
fn ends_building_unit(before: &str) -> bool
    ensures { result ≡ ends_building_unit (in_front before.now) }
{
    ends_any(&["单元", "單元", "住在"], before)
}

/// Whether a text ends with the words of a building.
#[tactic(auto, unfolding(crate::specs::CodeWords::follows_building))]
pub fn follows_building(before: &str) -> bool
    ensures { result ≡ follows_building (in_front before.now) }
{
    ends_with(&['楼', '樓', '栋', '棟', '幢', '座'], before) || ends_building_unit(before)
}

/// Whether a text begins with 路, but not with 路程, 路上 or 路口.
#[tactic(auto, unfolding(crate::specs::CodeWords::begins_route))]
pub fn begins_route(text: &str) -> bool
    ensures { result ≡ begins_route (chars text.now) }
{
    begins_with(&['路'], text) && !begins_with(&['程', '上', '口'], without_first(text))
}

/// Whether a text begins with a word before which a number from 1900 to 2099 is a year.
pub fn begins_of_year(text: &str) -> bool
    ensures { result ≡ begins_of_year (chars text.now) }
{
    begins_any(
        &[
            "级", "級", "届", "屆", "款", "版", "财年", "財年", "学年", "學年", "赛季", "賽季",
        ],
        text,
    )
}

/// Whether a run begins with 19 or 20, as a year does.
pub fn begins_century(run: &str) -> bool
    ensures { result ≡ begins_century (chars run.now) }
{
    begins_any_number(&["19", "20"], run)
}

// Whether a run begins with two figures that name those born in ten years.
fn begins_generation(run: &str) -> bool
    ensures { result ≡ begins_generation (chars run.now) }
{
    begins_any_number(
        &[
            "00", "05", "50", "55", "60", "65", "70", "75", "80", "85", "90", "95",
        ],
        run,
    )
}

// Whether a text begins with 后, but not with 后付.
fn begins_after(text: &str) -> bool
    ensures { result ≡ begins_after (chars text.now) }
{
    begins_with(&['后', '後'], text) && !begins_with(&['付', '實', '实', '再'], without_first(text))
}

/// Whether a run means those born in ten years, as in 90后, but not in 满300减50后.
#[tactic(auto, unfolding(crate::specs::CodeWords::is_generation))]
pub fn is_generation(before: &str, run: &str, text: &str) -> bool
    ensures { result ≡ is_generation (in_front before.now) (chars run.now) (chars text.now) }
{
    has_count(2, run)
        && begins_generation(run)
        && begins_after(text)
        && !ends_with(&['减', '減', '共', '满', '滿', '付', '加'], before)
}

/// Whether a text begins with a word before which Chinese digits after capital letters are a name.
pub fn begins_after_name(text: &str) -> bool
    ensures { result ≡ begins_after_name (chars text.now) }
{
    begins_any(
        &[
            "次",
            "号",
            "號",
            "航班",
            "高速",
            "快速",
            "国道",
            "國道",
            "出口",
            "登机",
            "登機",
            "检票口",
            "檢票口",
            "航站楼",
            "航站樓",
        ],
        text,
    )
}
