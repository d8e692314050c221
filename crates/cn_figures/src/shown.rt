ghost use Rattle.std.specs.Prelude.{Some};

use std::fmt;

/// An amount, shown in figures with two places: 15.00.
#[derive(Debug, Copy, Clone)]
pub struct Figures {
    /// The amount in fen.
    pub fen: u64,
}

impl fmt::Display for Figures {
    ghost use Rattle.cn_figures.specs.Figures.{figures_of};

    ghost output = { λ figures. Some (figures_of figures.fen) };

    fn fmt<W: fmt::Write>(&self, f: &mut fmt::Formatter<W>) -> fmt::Result {
        let (jiao, fen) = (self.fen / 10 % 10, self.fen % 10);
        write!(f, "{}.{jiao}{fen}", self.fen / 100)
    }
}
