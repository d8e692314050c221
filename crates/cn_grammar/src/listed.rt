ghost use Rattle.std.specs.Prelude.{◌≡◌, ℕ, List, Bool};
ghost use Rattle.cn_grammar.specs.Expected.{IsListed};

use crate::Grammar;

/// A grammar whose characters are listed.
pub trait Listed: Grammar {
    // The characters that forms have.
    ghost characters: { List ℕ };

    // Whether forms have white space anywhere.
    ghost white_space: { Bool };

    /// The characters that forms have. There may be more, which no form has.
    fn characters() -> &'static [char]
        ensures { result.now ≡ characters };

    /// Whether white space may be anywhere in a form.
    fn takes_white_space() -> bool
        ensures { result ≡ white_space };

    /// A law, which each grammar proves: forms have no other characters.
    fn characters_are_listed()
        ensures { IsListed characters white_space Self.machine };
}
