// Tests of a buffer that is filled from its start: what is written stays while all fits, is a string
// with one request for memory, and is counted when it does not fit.
use crate::calls::writes;
use cn_core::{Buffer, string_of};

#[test]
fn holds_what_is_put(rt: HostRuntime) {
    let mut bytes = [0; 4];
    let mut text = Buffer::new(&mut bytes);
    text.put_char('元');
    text.put("$");
    writes(&rt, string_of(rt.alloc(), text.into_text()), "元$");
}

#[test]
fn leaves_out_what_does_not_fit(rt: HostRuntime) {
    let mut bytes = [7; 4];
    let mut text = Buffer::new(&mut bytes);
    text.put("元");
    text.put_char('角');
    text.put("$");
    assert_eq!(rt; text.count, 7);
    assert!(rt; bytes.starts_with("元".as_bytes()) && bytes[3] == 7);
}
