//! Laws about refusals: their numbers, and for which reason an edit is refused.

ghost use Rattle.crush_edits.specs.LawOrder.{RowsAreRefusals, TestsRise, LeastIsTold, NoneIsTold, NothingIsTold, GroupPasses, GroupRefuses};

/// The table `refusal_rows` has a row for each refusal, with the refusal's number, its name and its
/// Linux error. The rows are in the order of the numbers.
pub fn refusals_are_a_table()
    ensures { RowsAreRefusals }
{}

/// If there are several reasons to refuse an edit, the edit is refused for the reason with the
/// lowest number. If an edit isn't refused, there is no reason to refuse it.
pub fn least_refusal_is_told()
    ensures rise { TestsRise }
    ensures least { LeastIsTold }
    ensures none { NoneIsTold }
{}

/// The tests of an edit can be done group by group. The first group in which a test holds decides
/// for which reason the edit is refused.
pub fn groups_are_asked_in_turn()
    ensures nothing { NothingIsTold }
    ensures passes { GroupPasses }
    ensures refuses { GroupRefuses }
{}
