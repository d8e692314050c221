ghost use Rattle.std.specs.Prelude.{◌≡◌, ℕ, List};
ghost use Rattle.cn_grammar.specs.Machine.{Machine, Reached, Reads};

// `cheque` has a short example: specs/DateFigures, src/dates.rt, specs/Working/DateSteps and
// proofs/DateFiguresRead.
/// The states in which texts are read from left to right by a grammar.
pub trait Grammar: Copy {
    /// The type of the value that a form stands for.
    type Value: Copy;

    // Which texts are forms, and of which value.
    ghost is_form: { List ℕ → Self.Value → Type 0 };

    // The states as definitions use them.
    ghost machine: { Machine Self Self.Value };

    /// The state before any character is read.
    fn begin() -> Self
        ensures { result ≡ machine.begin };

    /// The state after one more character; `None` if no form continues with it.
    fn step(self, character: char) -> Option<Self>
        requires { Reached machine self }
        ensures { result ≡ machine.step self character };

    /// The value if a form may end here, and otherwise `None`.
    fn end(self) -> Option<Self::Value>
        requires { Reached machine self }
        ensures { result ≡ machine.end self };

    /// A law, which each grammar proves: the states read exactly the forms.
    fn states_read_the_forms()
        ensures { Reads is_form machine };
}
