// A number read back from its text.
ghost use Rattle.std.specs.Prelude.{◌≡◌, ◌≤◌, ℤ, Some, unsigned_abs};
ghost use Rattle.std.specs.Fmt.{signed_decimal};
ghost use Rattle.cnf.specs.declared.clause.TheConstants.{LAST_NUMBER};

// The number that these bytes are the text of.
pub(crate) fn number_in(word: &[u8]) -> Option<i32>
    ensures { (l : ℤ) → word.now ≡ signed_decimal l → unsigned_abs l ≤ LAST_NUMBER → result ≡ Some l }
{
    std::str::from_utf8(word).ok()?.parse().ok()
}
