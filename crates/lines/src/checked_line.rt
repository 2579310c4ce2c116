// A line that nothing is wrong with, and its normal form.
ghost use Rattle.std.specs.Prelude.{◌<◌, ◌≡◌, ◌↔◌, length, Some, IsNone, IfNone, IfSome, MatchResult};
ghost use Rattle.pb.specs.Checks.{line_check, PassesChecks};
ghost use Rattle.pb.specs.Laws.{CheckIsExact, NormalIsNormal, NormalKeeps};
ghost use Rattle.pb.specs.Limits.{LineLimits};
ghost use Rattle.pb.specs.Lines.{entered_line};
ghost use Rattle.pb.specs.Variables.{variable_count};
ghost use Rattle.lines.specs.Forms.{Formed};

use crate::check::{check_size, check_terms};
use crate::normal::form_of;
use pb::constraint::Constraint;
use pb::line_fault::LineFault;
use pb::variables::Variables;
use pb::working::{WorkingHead, WorkingTerm};

/// A line that nothing is wrong with, in a job of so many variables.
#[derive(Clone, Copy, PartialEq, Eq, Debug)]
pub struct CheckedLine<'a> {
    pub(crate) variables: Variables,
    pub(crate) line: Constraint<'a>,
    pub ghost passes: { PassesChecks (variable_count variables) (entered_line line) },
}

impl<'a> CheckedLine<'a> {
    ghost use Rattle.lines.specs.CheckedLine.{checked_variables, checked_line, IsCheckedLine};

    /// The line, where nothing is wrong with it.
    ///
    /// # Errors
    ///
    /// The first fault: of the bound, of the number of terms, then of the terms, one by one.
    pub fn new(variables: Variables, line: Constraint<'a>) -> Result<CheckedLine<'a>, LineFault>
        ensures cases { MatchResult result
            (λ c. IsCheckedLine (variable_count variables) (entered_line line.entry) c)
            (λ e. line_check (variable_count variables) (entered_line line.entry) ≡ Some e) }
        ensures exact { CheckIsExact }
        ensures limits { LineLimits }
    {
        check_size(line.bound, line.terms.len())?;
        check_terms(variables, line.terms)?;
        Ok(CheckedLine { variables, line })
    }

    /// Writes the terms of the line's normal form into the first places of a table, and answers the rest
    /// of the form. Where the table has fewer places than the line has terms, answers nothing, and the
    /// table stays as it was.
    pub fn normal_form(self, form: &mut [WorkingTerm]) -> Option<WorkingHead>
        ensures short { IsNone result ↔ (length form.old < length (checked_line self.entry).terms) }
        ensures unchanged { IfNone result (form.new ≡ form.old) }
        ensures formed { IfSome result
            (λ f. Formed (checked_variables self.entry) (checked_line self.entry) f form.old form.new) }
        ensures keeps { NormalKeeps }
        ensures is_normal { NormalIsNormal }
    {
        if form.len() < self.line.terms.len() {
            return None;
        }
        Some(form_of(self, form))
    }
}
