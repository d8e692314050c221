/// Why a text is not a form.
#[derive(Debug, Clone, Copy, Eq, PartialEq)]
pub enum Refusal {
    /// It begins a form but ends too soon.
    Unfinished,
    /// No form begins with the text up to and including this character.
    Incorrect {
        /// How many characters come before it.
        char_index: usize,
    },
}
