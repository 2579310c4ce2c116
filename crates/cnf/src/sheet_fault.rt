// What a sheet can refuse.

/// Why a sheet refuses a call.
#[derive(Clone, Copy, PartialEq, Eq, Debug)]
pub enum SheetCause {
    /// The clause is malformed.
    Malformed,
    /// The clauses would not fit.
    Full,
    /// A cut cannot keep more clauses than there are.
    Cut,
}

/// A sheet's refusal: why, and how many clauses the sheet held before the call.
#[derive(Clone, Copy, PartialEq, Eq, Debug)]
pub struct SheetFault {
    /// Why.
    pub cause: SheetCause,
    /// How many clauses the sheet held before the call.
    pub count: usize,
}
