use lines::forcing::forced;
use lines::reducing::reduce;
use lines::tightening::tighten;
use pb::working::{Sense, WorkingHead, WorkingLine, WorkingTerm};

fn term(weight: u32, literal: i16) -> WorkingTerm {
    WorkingTerm { weight, literal }
}

#[test]
fn weights_are_divided_and_the_bound_rounded_up(rt: HostRuntime) {
    let mut terms = [term(6, 1), term(4, 2), term(4, 3)];
    let head = tighten(Sense::AtLeast, 9, &mut terms);
    assert!(rt;
        matches!(
            head,
            WorkingHead {
                sense: Sense::AtLeast,
                bound: 5,
                count: 3
            }
        )
    );
    assert_eq!(rt; terms[0].weight, 3);
    assert_eq!(rt; terms[1].weight, 2);
    assert_eq!(rt; terms[2].weight, 2);
}

#[test]
fn a_bound_that_does_not_divide_is_impossible(rt: HostRuntime) {
    let mut terms = [term(6, 1), term(4, 2)];
    let head = tighten(Sense::Exactly, 5, &mut terms);
    assert!(rt;
        matches!(
            head,
            WorkingHead {
                sense: Sense::AtLeast,
                bound: 1,
                count: 0
            }
        )
    );
    assert_eq!(rt; terms[0].weight, 6);
}

#[test]
fn a_weight_above_an_exact_bound_is_off(rt: HostRuntime) {
    let mut terms = [term(3, 1), term(1, 2)];
    let line = WorkingLine {
        sense: Sense::Exactly,
        bound: 2,
        terms: &terms,
    };
    assert_eq!(rt; forced(line), Some(-1));
    let head = reduce(-1, Sense::Exactly, 2, &mut terms);
    assert!(rt;
        matches!(
            head,
            WorkingHead {
                sense: Sense::Exactly,
                bound: 2,
                count: 1
            }
        )
    );
    assert_eq!(rt; terms[0].weight, 1);
    assert_eq!(rt; terms[0].literal, 2);
}
