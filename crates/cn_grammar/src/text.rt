// Writes capitals to a buffer.
ghost use Rattle.std.specs.Prelude.{[], ◌∷◌};
ghost use Rattle.cn_grammar.specs.Text.{PutsMore};

use crate::Written;
use cn_core::Buffer;

/// Writes a capital after the text in a buffer.
pub fn put_capital<H: Copy, C: Written<H>>(text: &mut Buffer, hand: H, capital: C)
    requires { C.can_write capital }
    ensures { PutsMore C.character hand text.old text.new (capital ∷ []) }
{
    text.put_char(capital.character(hand));
}
