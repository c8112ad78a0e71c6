//! Laws about lost changes. Each law is the contract of a function that does nothing.

ghost use Rattle.crush_conflicts.specs.Laws.{CountZeroNoLoss, NoLineNoLoss};

/// If the text of the lost changes is empty, then no change is lost: the map after the run has each
/// change that an operator's script makes when only this script runs.
pub fn no_line_means_no_loss()
    ensures { NoLineNoLoss }
{}

/// If the text of the lost changes has 0 lines, which means that it has no line feed, then no
/// change is lost: the map after the run has each change that an operator's script makes when only
/// this script runs.
pub fn count_zero_means_no_loss()
    ensures { CountZeroNoLoss }
{}
