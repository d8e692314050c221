// What the examples return.
use crate::amount::amount_in_capitals;
use crate::chapter::chapter_number;
use crate::number::number_of;
use crate::read_back::{print_and_read, put_and_read};
use chinese_number::{ChineseCase, ChineseCountMethod, ChineseVariant, ROOM_BYTES};

#[test]
fn examples_answer(rt: HostRuntime) {
    let amount = amount_in_capitals(rt.alloc(), 1_500).expect(&rt, "memory");
    assert_eq!(rt; amount.as_str(), "壹拾伍元整");
    assert_eq!(rt; number_of("一百二"), Ok(120));
    let (variant, case) = (ChineseVariant::Simple, ChineseCase::Upper);
    let method = ChineseCountMethod::TenThousand;
    let number = print_and_read(rt.alloc(), variant, case, method, 1_280_500u64);
    assert_eq!(rt; number.expect(&rt, "memory"), Ok(1_280_500));
    let mut room = [0; ROOM_BYTES];
    let number = put_and_read(&mut room, variant, case, method, 1_280_500u64);
    assert_eq!(rt; number, Ok(Ok(1_280_500)));
    assert_eq!(rt; chapter_number("第二十三回"), Some(23));
}
