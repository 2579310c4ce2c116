// Where the parts of a slice end that a mark ends.
ghost use Rattle.std.specs.Prelude.{◌≡◌, Bool};
ghost use Rattle.cnf.specs.Marks.{place_after_mark};

/// Which elements end a part.
// a trait, since a closure would ask whoever calls `after_mark` to show that it may be called, and other tests than
// `Equal` may come.
pub trait Mark<T> {
    ghost ends: { Self → T → Bool };

    /// Whether this element ends a part.
    fn is_end(&self, element: T) -> bool
        ensures { result ≡ ends self.now element };
}

/// Those that equal this one.
#[derive(Clone, Copy, PartialEq, Eq, Debug)]
pub struct Equal<T>(pub T);

impl<T: Copy + Eq> Mark<T> for Equal<T> {
    ghost ends = { λ mark element. T.eq element mark.0 };

    fn is_end(&self, element: T) -> bool {
        element == self.0
    }
}

/// The place after the k-th mark, or the slice's length where there are fewer.
pub fn after_mark<T: Copy, E: Mark<T>>(all: &[T], mark: &E, k: usize) -> usize
    ensures { result ≡ place_after_mark (E.Mark.ends mark.now) k all.now }
{
    // the marks left are counted, since no place is: a filter's `nth` would need a case for 0 and the length.
    let mut left = k;
    for (i, element) in all.iter().enumerate() {
        if left == 0 {
            return i;
        }
        if mark.is_end(*element) {
            left -= 1;
        }
    }
    all.len()
}
