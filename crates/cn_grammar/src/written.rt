ghost use Rattle.std.specs.Prelude.{◌≡◌, ℕ};

/// A capital, which each hand writes as a character. A hand is a script, or a script and a form.
pub trait Written<H>: Copy {
    // Whether the capital can be written.
    ghost can_write: { Self → Type 0 };

    ghost character: { H → Self → ℕ };

    /// The character that writes the capital.
    fn character(self, hand: H) -> char
        requires { can_write self }
        ensures { result ≡ character hand self };
}
