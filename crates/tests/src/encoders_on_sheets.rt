// Small lines, and what each encoder puts of them on real sheets.
use crate::exercise::refused;
use cnf::sheet::Sheet;
use cnf::sheet_fault::SheetCause;
use encode::cost::Cost;
use encode::encode_fault::EncodeFault;
use encode::encoder::Encoder;
use encoders::choice::UpTo;
use encoders::direct::Direct;
use encoders::order::Order;
use pb::working::Sense::{AtLeast, Exactly};
use pb::working::{Sense, WorkingLine, WorkingTerm};
use sheets::ceiling::Ceiling;
use sheets::finished::finish;
use sheets::flat::FlatSheet;
use sheets::text::TextSheet;

const fn on(weight: u32, literal: i16) -> WorkingTerm {
    WorkingTerm { weight, literal }
}

const fn cost(auxiliaries: usize) -> Cost {
    Cost { auxiliaries }
}

fn line(sense: Sense, bound: u32, terms: &[WorkingTerm]) -> WorkingLine<'_> {
    WorkingLine {
        sense,
        bound,
        terms,
    }
}

#[test]
fn direct_names_the_least_sets(rt: HostRuntime) {
    let terms = [on(1, 1), on(2, 2), on(3, 3)];
    let mut bytes = [0; 64];
    let mut sheet = TextSheet::new(&mut bytes);
    assert_eq!(rt;
        Direct::new().encode(line(AtLeast, 4, &terms), 4, &mut sheet),
        Ok(2)
    );
    assert_eq!(rt;
        Direct::new().encode(line(Exactly, 4, &terms), 4, &mut sheet),
        Ok(3)
    );
    assert_eq!(rt;
        Direct::new().encode(line(AtLeast, 0, &[]), 4, &mut sheet),
        Ok(0)
    );
    assert_eq!(rt;
        Direct::new().encode(line(AtLeast, 1, &[]), 4, &mut sheet),
        Ok(1)
    );
    assert_eq!(rt;
        finish(sheet).bytes(),
        b"1 2 0\n3 0\n1 2 0\n3 0\n-2 -3 0\n0\n".as_slice()
    );
}

#[test]
fn order_counts_in_a_matrix(rt: HostRuntime) {
    let terms = [on(2, 1), on(1, 2)];
    let mut bytes = [0; 256];
    let mut sheet = TextSheet::new(&mut bytes);
    assert_eq!(rt;
        Order::new().encode(line(AtLeast, 2, &terms), 3, &mut sheet),
        Ok(12)
    );
    assert_eq!(rt;
        Order::new().encode(line(Exactly, 0, &terms), 7, &mut sheet),
        Ok(6)
    );
    assert_eq!(rt;
        Order::new().encode(line(AtLeast, 1, &[]), 9, &mut sheet),
        Ok(1)
    );
    assert_eq!(rt;
        finish(sheet).bytes(),
        b"-1 3 0\n1 -3 0\n-1 4 0\n1 -4 0\n-3 5 0\n-2 5 0\n2 3 -5 0\n-4 6 0\n-2 -3 6 0\n2 4 -6 0\n3 -6 0\n\
          6 0\n-1 7 0\n1 -7 0\n-7 8 0\n-2 8 0\n2 7 -8 0\n-8 0\n0\n"
            .as_slice()
    );
}

#[test]
fn reach_ends_where_it_should(rt: HostRuntime) {
    let terms = [on(1, 1); 65];
    assert_eq!(rt;
        Direct::new().reach(line(AtLeast, 1, &terms[0..12]), 66),
        Some(cost(0))
    );
    assert_eq!(rt;
        Direct::new().reach(line(AtLeast, 1, &terms[0..13]), 66),
        None
    );
    assert_eq!(rt;
        Order::new().reach(line(AtLeast, 256, &terms[0..64]), 66),
        Some(cost(16_384))
    );
    assert_eq!(rt;
        Order::new().reach(line(Exactly, 255, &terms[0..64]), 66),
        Some(cost(16_384))
    );
    assert_eq!(rt;
        Order::new().reach(line(Exactly, 256, &terms[0..64]), 66),
        None
    );
    assert_eq!(rt;
        Order::new().reach(line(AtLeast, 257, &terms[0..64]), 66),
        None
    );
}

#[test]
fn a_refused_line_leaves_the_sheet(rt: HostRuntime) {
    let terms = [on(1, 1); 13];
    let mut cells = [0; 16];
    let mut sheet = FlatSheet::new(&mut cells);
    assert_eq!(rt; sheet.give(&[9]), Ok(1));
    assert_eq!(rt;
        Direct::new().encode(line(AtLeast, 1, &terms), 2, &mut sheet),
        Err(EncodeFault::Reach)
    );
    assert_eq!(rt;
        Order::new().encode(line(AtLeast, 2, &terms), 2, &mut sheet),
        Err(EncodeFault::Sheet(refused(SheetCause::Full, 1)))
    );
    // the numbers run past 60,000
    assert_eq!(rt;
        Order::new().encode(line(AtLeast, 1, &terms), 60_000, &mut sheet),
        Err(EncodeFault::Sheet(refused(SheetCause::Malformed, 1)))
    );
    assert_eq!(rt; sheet.count(), 1);
    assert_eq!(rt; sheet.literal(1, 1), Some(9));
}

#[test]
fn a_line_that_fits_in_part_leaves_the_text(rt: HostRuntime) {
    let terms = [on(1, 1), on(2, 2), on(3, 3)];
    let mut bytes = [0; 64];
    let mut text = TextSheet::new(&mut bytes);
    let mut sheet = Ceiling::new(&mut text, 3);
    assert_eq!(rt; sheet.give(&[9]), Ok(1));
    // of its three clauses there is room for two
    assert_eq!(rt;
        Direct::new().encode(line(Exactly, 4, &terms), 4, &mut sheet),
        Err(EncodeFault::Sheet(refused(SheetCause::Full, 1)))
    );
    assert_eq!(rt; finish(text).bytes(), b"9 0\n".as_slice());
}

#[test]
fn one_of_two_encoders_is_chosen_by_terms(rt: HostRuntime) {
    let terms = [on(1, 1), on(1, 2), on(1, 3)];
    let both = UpTo {
        most: 2,
        few: Direct::new(),
        many: Order::new(),
    };
    assert_eq!(rt;
        both.reach(line(AtLeast, 1, &terms[0..2]), 4),
        Some(cost(0))
    );
    assert_eq!(rt; both.reach(line(AtLeast, 1, &terms), 4), Some(cost(3)));
    let mut bytes = [0; 128];
    let mut sheet = TextSheet::new(&mut bytes);
    assert_eq!(rt;
        both.encode(line(AtLeast, 1, &terms[0..2]), 4, &mut sheet),
        Ok(1)
    );
    assert_eq!(rt; both.encode(line(AtLeast, 1, &terms), 4, &mut sheet), Ok(9));
    assert_eq!(rt; sheet.count(), 10);
}
