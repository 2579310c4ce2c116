// What stands before the clauses: how many variables there are, and how many clauses.
ghost use Rattle.std.specs.Prelude.{◌++◌, Some, codes, decimal};

use std::fmt;

/// The first line of a DIMACS file.
#[derive(Clone, Copy, PartialEq, Eq, Debug)]
pub struct Header {
    /// The highest number that a variable or an auxiliary has.
    pub variables: u16,
    /// How many clauses there are.
    pub clauses: usize,
}

impl fmt::Display for Header {
    ghost output = { λ h. Some (codes "p cnf " ++ (decimal h.variables ++ (codes " " ++ decimal h.clauses))) };

    fn fmt<W: fmt::Write>(&self, f: &mut fmt::Formatter<W>) -> fmt::Result {
        let variables = self.variables;
        let clauses = self.clauses;
        write!(f, "p cnf {variables} {clauses}")
    }
}
