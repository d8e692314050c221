/// The language of a message.
#[derive(Debug, Clone, Copy, Eq, PartialEq)]
pub enum Language {
    English,
    /// Chinese in simplified characters, zh-Hans.
    Simplified,
    /// Chinese in traditional characters, zh-Hant.
    Traditional,
}
