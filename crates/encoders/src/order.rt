// The order encoder, and which lines are in its reach.
ghost use Rattle.encode.specs.Calls.{Encoded, UntouchedOutOfReach};
ghost use Rattle.encode.specs.Extending.{LinesTogether};
ghost use Rattle.encode.specs.Law.{Lawful};
ghost use Rattle.encode.specs.Models.{ModelsExtend};
ghost use Rattle.encode.specs.Order.{order_encoding};
ghost use Rattle.encode.specs.OrderWorked.{OrderWorkedCases};
ghost use Rattle.encode.proofs.Ordering.{order_lawful};
ghost use Rattle.pb.specs.Lines.{working_of};

use cnf::listing::give_all;
use cnf::sheet::Sheet;
use encode::cost::Cost;
use encode::encode_fault::EncodeFault;
use encode::encoder::Encoder;
use encode::reaches::MOST_ORDER_AUXILIARIES;
use matrix::{Matrix, columns};
use pb::working::WorkingLine;

mod matrix;

/// The order encoder. It keeps nothing: a line's clauses depend on the line and the first auxiliary's number alone.
#[derive(Clone, Copy, PartialEq, Eq, Debug, Default)]
pub struct Order;

impl Order {
    /// The encoder, with its law, what that comes to for a line and for lines one after another, and worked cases.
    pub fn new() -> Order
        ensures law { Lawful order_encoding }
        ensures models { ModelsExtend order_encoding }
        ensures lines { LinesTogether }
        ensures worked { OrderWorkedCases }
    {
        Order
    }
}

impl Encoder for Order {
    ghost meaning = { λ _. order_encoding };

    ghost lawful = { λ _. order_lawful };

    fn reach(&self, line: WorkingLine<'_>, _first: u16) -> Option<Cost> {
        // of a long line the product may not fit
        line.terms
            .len()
            .checked_mul(columns(line))
            .filter(|auxiliaries| *auxiliaries <= MOST_ORDER_AUXILIARIES)
            .map(|auxiliaries| Cost { auxiliaries })
    }

    fn encode<S: Sheet>(
        &self,
        line: WorkingLine<'_>,
        first: u16,
        sheet: &mut S,
    ) -> Result<usize, EncodeFault>
        ensures encoded { Encoded S.Sheet sheet.old sheet.new result order_encoding (working_of line.entry) first }
        ensures untouched { UntouchedOutOfReach order_encoding (working_of line.entry) first sheet.old sheet.new }
    {
        self.reach(line, first).ok_or(EncodeFault::Reach)?;
        let matrix = Matrix {
            line,
            columns: columns(line),
            first,
        };
        Ok(give_all(&matrix, sheet)?)
    }
}
