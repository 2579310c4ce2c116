use lines::checked_line::CheckedLine;
use pb::constraint::{Constraint, MOST_TERMS};
use pb::relation::Relation;
use pb::term::Term;
use pb::variables::Variables;
use pb::working::{Sense, WorkingHead, WorkingTerm};
use std::test::Fail;

const BLANK: WorkingTerm = WorkingTerm {
    weight: 0,
    literal: 0,
};

// The normal form of a line over two variables, with the table that its terms stand in.
fn formed(
    relation: Relation,
    bound: i32,
    terms: &[Term],
) -> Result<(WorkingHead, [WorkingTerm; MOST_TERMS]), Fail> {
    let Some(variables) = Variables::new(2) else {
        return Err(Fail::new("two variables are refused"));
    };
    let line = Constraint {
        relation,
        bound,
        terms,
    };
    let Ok(checked) = CheckedLine::new(variables, line) else {
        return Err(Fail::new("the line is refused"));
    };
    let mut form = [BLANK; MOST_TERMS];
    match checked.normal_form(&mut form) {
        Some(found) => Ok((found, form)),
        None => Err(Fail::new("the table is too short")),
    }
}

#[test]
fn negative_weight_goes_to_the_complement(rt: HostRuntime) -> Result<(), Fail> {
    let terms = [
        Term {
            weight: 1,
            literal: 1,
        },
        Term {
            weight: -2,
            literal: 2,
        },
    ];
    let (found, form) = formed(Relation::AtLeast, 1, &terms)?;
    assert_eq!(rt; found.sense, Sense::AtLeast);
    assert_eq!(rt; found.bound, 3);
    assert_eq!(rt; found.count, 2);
    assert_eq!(rt;
        form[0],
        WorkingTerm {
            weight: 1,
            literal: 1,
        }
    );
    assert_eq!(rt;
        form[1],
        WorkingTerm {
            weight: 2,
            literal: -2,
        }
    );
    Ok(())
}

#[test]
fn at_most_gathers_and_negates(rt: HostRuntime) -> Result<(), Fail> {
    let terms = [
        Term {
            weight: 3,
            literal: 1,
        },
        Term {
            weight: 2,
            literal: -1,
        },
        Term {
            weight: 1,
            literal: 2,
        },
    ];
    let (found, form) = formed(Relation::AtMost, 2, &terms)?;
    assert_eq!(rt; found.sense, Sense::AtLeast);
    assert_eq!(rt; found.bound, 2);
    assert_eq!(rt; found.count, 2);
    assert_eq!(rt;
        form[0],
        WorkingTerm {
            weight: 1,
            literal: -1,
        }
    );
    assert_eq!(rt;
        form[1],
        WorkingTerm {
            weight: 1,
            literal: -2,
        }
    );
    Ok(())
}

#[test]
fn complements_cancel(rt: HostRuntime) -> Result<(), Fail> {
    let terms = [
        Term {
            weight: 1,
            literal: 1,
        },
        Term {
            weight: 1,
            literal: -1,
        },
    ];
    let (found, _) = formed(Relation::AtLeast, 1, &terms)?;
    assert_eq!(rt; found.bound, 0);
    assert_eq!(rt; found.count, 0);
    Ok(())
}

#[test]
fn exactly_below_zero_is_impossible(rt: HostRuntime) -> Result<(), Fail> {
    let (found, _) = formed(
        Relation::Exactly,
        -1,
        &[Term {
            weight: 1,
            literal: 1,
        }],
    )?;
    assert_eq!(rt; found.sense, Sense::AtLeast);
    assert_eq!(rt; found.bound, 1);
    assert_eq!(rt; found.count, 0);
    Ok(())
}
