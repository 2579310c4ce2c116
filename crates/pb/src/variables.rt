// How many variables a job has.
ghost use Rattle.std.specs.Prelude.{◌≡◌, ◌<◌, ◌≤◌, MatchOption};
ghost use Rattle.pb.specs.declared.variables.TheConstants.{MOST_VARIABLES};

/// The most variables that a job may have.
pub const MOST_VARIABLES: u16 = 256;

/// The number of a job's variables, from 1 to [`MOST_VARIABLES`]. They are numbered from 1.
#[derive(Clone, Copy, PartialEq, Eq, Debug)]
pub struct Variables {
    count: u16,
    ghost some: { 0 < count },
    ghost few: { count ≤ MOST_VARIABLES },
}

impl Variables {
    ghost use Rattle.pb.specs.Variables.{variable_count};

    /// So many variables, or nothing where a job cannot have that many.
    pub fn new(count: u16) -> Option<Variables>
        ensures { MatchOption result ((0 < count) → (count ≤ MOST_VARIABLES) → ⊥) (λ v. variable_count v ≡ count) }
    {
        if count == 0 || count > MOST_VARIABLES {
            return None;
        }
        Some(Variables { count })
    }

    /// How many they are.
    pub fn count(self) -> u16
        ensures { result ≡ variable_count self }
    {
        self.count
    }
}
