// Allocates memory for a text.
ghost use Rattle.std.specs.Prelude.{IfOk};
ghost use Rattle.cn_core.specs.Strings.{IsStringOf};

use std::alloc::{AllocError, Global};

/// A text as a string, with one allocation of exactly its size.
pub fn string_of(alloc: Global, text: &str) -> Result<String, AllocError>
    ensures { IfOk result (IsStringOf text.now) }
{
    let mut bytes = Vec::with_capacity(alloc, text.len())?;
    for byte in text.as_bytes() {
        bytes.push_reserved(*byte);
    }
    Ok(unsafe { String::from_utf8_unchecked(bytes) })
}
