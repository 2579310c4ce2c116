// A clause is a slice of literals: v, that variable v is true, or -v, that it is false.
ghost use Rattle.std.specs.Prelude.{◌≡◌, true, is_some, IfSome};
ghost use Rattle.cnf.specs.Clauses.{of_literals, literal_formed, well_formed, ClauseLimits};

/// The most literals that a clause may have.
pub const MOST_LITERALS: usize = 256;

/// The last number of a variable or an auxiliary that a literal may name. The first is 1.
pub const LAST_NUMBER: u16 = 60_000;

fn is_literal_formed(literal: i32) -> bool
    ensures { result ≡ literal_formed literal }
{
    let variable = literal.unsigned_abs();
    0 < variable && variable <= u32::from(LAST_NUMBER)
}

/// Whether a sheet may take the clause: it has at most `MOST_LITERALS` literals, each of a number from 1 to
/// `LAST_NUMBER`. A clause without literals is well-formed too.
pub fn is_well_formed(clause: &[i32]) -> bool
    ensures { result ≡ well_formed (of_literals clause.now) }
{
    clause.len() <= MOST_LITERALS && clause.iter().all(|literal| is_literal_formed(*literal))
}

/// A clause that a sheet may take.
#[derive(Clone, Copy, PartialEq, Eq, Debug)]
pub struct FormedClause<'a> {
    literals: &'a [i32],
    ghost formed: { well_formed (of_literals literals.now) ≡ true },
}

impl<'a> FormedClause<'a> {
    ghost use Rattle.cnf.specs.FormedClause.{clause_in};

    /// The clause of these literals, or nothing where it is not well-formed.
    pub fn new(literals: &'a [i32]) -> Option<FormedClause<'a>>
        ensures formed { is_some result ≡ well_formed (of_literals literals.now) }
        ensures same { IfSome result (λ clause. clause_in clause ≡ of_literals literals.now) }
        ensures limits { ClauseLimits }
    {
        if !is_well_formed(literals) {
            return None;
        }
        Some(FormedClause { literals })
    }

    /// Its literals, in their order.
    pub fn literals(self) -> &'a [i32]
        ensures { result.now ≡ (clause_in self.entry).literals }
    {
        self.literals
    }
}
