// A finished text: its bytes can be read, and no more clauses can be given.
ghost use Rattle.std.specs.Prelude.{◌≡◌, ◌++◌, Some};
ghost use Rattle.cnf.specs.Text.{text_of, read_text, TextReadsBack};
ghost use Rattle.sheets.specs.FinishedText.{text_in, rest_in};
ghost use Rattle.sheets.specs.MemorySheet.{held_by, memory_of};

use crate::text::TextSheet;

/// The text of clauses, in bytes that were lent for it, and the bytes past it.
#[derive(Clone, Copy, PartialEq, Eq, Debug)]
pub struct FinishedText<'a> {
    bytes: &'a [u8],
    rest: &'a [u8],
}

impl<'a> FinishedText<'a> {
    /// The text.
    pub fn bytes(self) -> &'a [u8]
        ensures { result.now ≡ text_in self.entry }
    {
        self.bytes
    }

    /// The bytes past the text, as they were before it was finished.
    pub fn rest(self) -> &'a [u8]
        ensures { result.now ≡ rest_in self.entry }
    {
        self.rest
    }
}

/// The text of the clauses held, to which no more can be given.
pub fn finish(sheet: TextSheet<'_>) -> FinishedText<'_>
    ensures text { text_in result ≡ text_of (held_by sheet.entry) }
    ensures reads { read_text (text_in result) ≡ Some (held_by sheet.entry) }
    ensures all { text_in result ++ rest_in result ≡ memory_of sheet.entry }
    ensures back { TextReadsBack }
{
    let (bytes, rest) = sheet.into_cells();
    FinishedText { bytes, rest }
}
