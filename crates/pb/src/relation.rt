// The relations that a line may have, and their numbers.
ghost use Rattle.std.specs.Prelude.{◌≡◌};
ghost use Rattle.pb.specs.Checks.{numbered_relation};

use crate::line_fault::LineFault;

/// How a line's total is to stand to its bound.
#[derive(Clone, Copy, PartialEq, Eq, Debug)]
pub enum Relation {
    /// The total is the bound or more.
    AtLeast,
    /// The total is the bound or less.
    AtMost,
    /// The total is the bound.
    Exactly,
    /// The total is above the bound.
    MoreThan,
    /// The total is below the bound.
    LessThan,
}

/// The relation of a number, or [`LineFault::Relation`] where it is the number of none.
impl TryFrom<u8> for Relation {
    type Error = LineFault;

    ghost try_from_gives = { λ number r. r ≡ numbered_relation number };

    fn try_from(number: u8) -> Result<Relation, LineFault> {
        match number {
            1 => Ok(Relation::AtLeast),
            2 => Ok(Relation::AtMost),
            3 => Ok(Relation::Exactly),
            4 => Ok(Relation::MoreThan),
            5 => Ok(Relation::LessThan),
            _ => Err(LineFault::Relation),
        }
    }
}
