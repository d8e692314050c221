// Worked lines.
use super::{ROWS, answers_rows, ends_well};
use std::alloc::AllocError;

#[test]
fn answers_each_row(rt: HostRuntime) -> Result<(), AllocError> {
    answers_rows(&rt, &ROWS, &[1, 2, 3, 5, 17, 64, 1000, 4096])
}

// Line ends, and bytes that are not text.
static BYTES: [(&[u8], &[u8]); 6] = [
    (b"", b""),
    (b"\n", b"bad line\n"),
    (b"\n\n", b"bad line\nbad line\n"),
    (
        b"read u8 naive \xff\nread u8 naive 1\n",
        b"bad line\nok 1\n",
    ),
    (
        b"print u8 naive traditional lower 10",
        b"ok \xe4\xb8\x80\xe9\x9b\xb6\n",
    ),
    (b"print u8 low traditional lower 10", b"ok \xe5\x8d\x81\n"),
];

#[test]
fn answers_ends_and_bytes(rt: HostRuntime) {
    for (input, output) in &BYTES {
        ends_well(&rt, input, 7, output);
    }
}
