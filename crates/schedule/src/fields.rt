// What the bodies of records hold. Numbers stand high byte first.
ghost use Rattle.std.specs.Prelude.{◌≡◌};
ghost use Rattle.schedule.specs.Records.{variables_in, relation_in, terms_in, bound_in, term_in};

use pb::term::Term;

// What a line's first record says: the relation's number, how many terms there are, and the bound.
#[derive(Clone, Copy, PartialEq, Eq, Debug)]
pub(crate) struct LineHeader {
    // the number as the file has it, which `check_head` judges before the bound and the count.
    pub(crate) relation: u8,
    pub(crate) terms: u8,
    pub(crate) bound: i32,
}

// How many variables the file has.
// no From, since neither type is of this crate.
pub(crate) fn variables_in(body: [u8; 2]) -> u16
    ensures { result ≡ variables_in body }
{
    u16::from_be_bytes(body)
}

impl From<[u8; 6]> for LineHeader {
    ghost from_gives = { λ body r.
        (r.relation ≡ relation_in body) × (r.terms ≡ terms_in body) × (r.bound ≡ bound_in body) };

    fn from(body: [u8; 6]) -> LineHeader {
        let [relation, terms, a, b, c, d] = body;
        LineHeader {
            relation,
            terms,
            bound: i32::from_be_bytes([a, b, c, d]),
        }
    }
}

// no From, since neither type is of this crate.
pub(crate) fn term_in(body: [u8; 6]) -> Term
    ensures { result ≡ term_in body }
{
    let [a, b, c, d, high, low] = body;
    Term {
        weight: i32::from_be_bytes([a, b, c, d]),
        literal: i16::from_be_bytes([high, low]),
    }
}
