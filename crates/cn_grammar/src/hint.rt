/// One change of a text.
///
/// ```text
/// Repair::Insert('零') at 2     壹佰贰元整 → 壹佰零贰元整
/// Repair::Replace('元') at 2    伍佰块整 → 伍佰元整
/// Repair::Delete at 2           捌佰零伍拾元整 → 捌佰伍拾元整
/// ```
#[derive(Debug, Clone, Copy, Eq, PartialEq)]
pub enum Repair {
    /// This character is inserted before the place.
    Insert(char),
    /// The character at the place becomes this one.
    Replace(char),
    /// The character at the place is removed.
    Delete,
}

/// A change of a text, and its place. A call that returns one says what the text is after it.
///
/// ```text
/// amount_repair("壹佰贰元整") == Some(Hint { char_index: 2, repair: Repair::Insert('零') })
/// ```
#[derive(Debug, Clone, Copy, Eq, PartialEq)]
pub struct Hint {
    /// The place: how many characters of the text come before it.
    pub char_index: usize,
    /// What is changed there.
    pub repair: Repair,
}
