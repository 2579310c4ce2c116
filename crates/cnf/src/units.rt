// Lists of clauses of one literal each.
ghost use Rattle.std.specs.Prelude.{◌≡◌, ℤ, map};
ghost use Rattle.cnf.specs.Laws.{UnitClauses};
ghost use Rattle.cnf.specs.Sheets.{GivenEach};
ghost use Rattle.cnf.specs.Units.{units};

use crate::listing::Listing;
use crate::sheet::Sheet;
use crate::sheet_fault::SheetFault;

/// What has a literal: a literal alone, or an entry of a table that has one beside other things.
pub trait HasLiteral {
    ghost literal: { Self → ℤ };

    /// The literal.
    fn literal(&self) -> i32
        ensures { result ≡ literal self.now };
}

impl HasLiteral for i32 {
    ghost literal = { λ literal. literal };

    fn literal(&self) -> i32 {
        *self
    }
}

/// A clause of one literal for each of these, in their order.
#[derive(Clone, Copy, PartialEq, Eq, Debug)]
pub struct Units<'a, T>(pub &'a [T]);

impl<'a, T: HasLiteral> Listing for Units<'a, T> {
    ghost clauses = { λ list. units (map T.HasLiteral.literal list.0.now) };

    fn give_each<S: Sheet>(&self, sheet: &mut S) -> Result<(), SheetFault>
        ensures given { GivenEach S.Sheet sheet.old sheet.new result
            (units (map T.HasLiteral.literal self.now.0.now)) }
        ensures laws { UnitClauses }
    {
        for entry in self.0 {
            let _ = sheet.give(&[entry.literal()])?;
        }
        Ok(())
    }
}
