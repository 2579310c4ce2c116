// What an encoder can refuse.
ghost use Rattle.std.specs.Prelude.{◌≡◌};
ghost use Rattle.encode.specs.declared.encode_fault.EncodeFault.TheVariants.{Sheet};

use cnf::sheet_fault::SheetFault;

/// Why a line was not encoded.
#[derive(Clone, Copy, PartialEq, Eq, Debug)]
pub enum EncodeFault {
    /// The line is out of the encoder's reach.
    Reach,
    /// The sheet refused the line's clauses.
    Sheet(SheetFault),
}

impl From<SheetFault> for EncodeFault {
    ghost from_gives = { λ e r. r ≡ Sheet e };

    fn from(fault: SheetFault) -> EncodeFault {
        EncodeFault::Sheet(fault)
    }
}
