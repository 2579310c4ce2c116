// The layers that refuse, by the names that are printed.
ghost use Rattle.std.specs.Prelude.{Some};
ghost use Rattle.fault.specs.Refusals.{layer_name};

use std::fmt;

/// Which layer refuses.
#[derive(Clone, Copy, PartialEq, Eq, Debug)]
pub enum Layer {
    /// Keeps a job's variables, lines and settled literals.
    Book,
    /// Looks at one line.
    Lines,
    /// Keeps clauses.
    Sheet,
    /// Reads a schedule file.
    File,
}

impl fmt::Display for Layer {
    ghost output = { λ layer. Some (layer_name layer) };

    fn fmt<W: fmt::Write>(&self, f: &mut fmt::Formatter<W>) -> fmt::Result {
        match self {
            Layer::Book => f.write_str("book"),
            Layer::Lines => f.write_str("lines"),
            Layer::Sheet => f.write_str("sheet"),
            Layer::File => f.write_str("file"),
        }
    }
}
