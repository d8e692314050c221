// The states of reading an amount as people type it, with or without a sign.
ghost use Rattle.std.specs.Prelude.{◌≡◌};
ghost use Rattle.cn_grammar.specs.Machine.{Reached};
ghost use Rattle.cn_amount.specs.Typed.{IsTypedAmount, IsTypedSignedAmount};
ghost use Rattle.cn_amount.specs.Working.Steps.{amount_machine};
ghost use Rattle.cn_amount.specs.Working.Typing.{begin, amount_step, step, typed_machine, typed_signed_machine};

use crate::prefix::{Point, Prefix};
use crate::progress::Progress;
use crate::signed::signed_fen;
use cn_grammar::{Front, Grammar};

/// What has been read before the amount, and the state of reading the amount.
#[derive(Clone, Copy)]
pub struct Typing {
    prefix: Prefix,
    progress: Progress,
}

impl Typing {
    // Nothing has been read.
    fn begin(sign: Front) -> Typing
        ensures { result ≡ begin sign }
    {
        Typing {
            prefix: Prefix::first(sign),
            progress: Progress::bare(),
        }
    }

    // The state after a character of the amount.
    fn amount_step(self, character: char) -> Option<Typing>
        requires { Reached amount_machine self.progress }
        ensures { result ≡ amount_step self character }
    {
        if !self.prefix.is_over() {
            return None;
        }
        let progress = self.progress.step(character)?;
        let prefix = self.prefix.at(Point::Amount);
        Some(Typing { prefix, progress })
    }

    // The state after a character that is not white space.
    fn step(self, character: char) -> Option<Typing>
        requires { Reached amount_machine self.progress }
        ensures { result ≡ step self character }
    {
        match self.prefix.next(character) {
            Some(prefix) => Some(Typing { prefix, ..self }),
            None => self.amount_step(character),
        }
    }
}

/// The state of reading an amount that has no sign.
#[derive(Clone, Copy)]
pub struct TypedProgress {
    typing: Typing,
}

/// The grammar of amounts in capitals as people type them, without a sign.
pub type TypedAmountGrammar = TypedProgress;

impl Grammar for TypedProgress {
    type Value = u64;

    ghost is_form = { IsTypedAmount };

    ghost machine = { typed_machine };

    fn begin() -> TypedProgress {
        TypedProgress {
            typing: Typing::begin(Front::Plain),
        }
    }

    fn step(self, character: char) -> Option<TypedProgress> {
        if character.is_whitespace() {
            return Some(self);
        }
        let typing = self.typing.step(character)?;
        Some(TypedProgress { typing })
    }

    fn end(self) -> Option<u64> {
        self.typing.progress.end()
    }

    #[tactic(auto, using(crate::proofs::TypedReads::typed_reads))]
    fn states_read_the_forms() {}
}

/// The state of reading an amount that may have a sign.
#[derive(Clone, Copy)]
pub struct TypedSignedProgress {
    typing: Typing,
}

/// The grammar of amounts in capitals as people type or copy them, with or without a sign.
pub type TypedSignedAmountGrammar = TypedSignedProgress;

impl Grammar for TypedSignedProgress {
    type Value = i64;

    ghost is_form = { IsTypedSignedAmount };

    ghost machine = { typed_signed_machine };

    fn begin() -> TypedSignedProgress {
        TypedSignedProgress {
            typing: Typing::begin(Front::Open),
        }
    }

    fn step(self, character: char) -> Option<TypedSignedProgress> {
        if character.is_whitespace() {
            return Some(self);
        }
        let typing = self.typing.step(character)?;
        Some(TypedSignedProgress { typing })
    }

    fn end(self) -> Option<i64> {
        let magnitude = self.typing.progress.end()?;
        Some(signed_fen(self.typing.prefix.sign.is_below(), magnitude))
    }

    #[tactic(auto, using(crate::proofs::TypedReads::typed_signed_reads))]
    fn states_read_the_forms() {}
}
