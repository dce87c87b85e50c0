//! How many steps a run makes does not depend on its schedule. Each function does nothing; its contract is
//! the law, stated in `specs/StepLaws.antt` and `specs/DealtLaws.antt`.

ghost use Rattle.amber_laws.specs.DealtLaws.{DealtRowsAreTheOperators, TakenRowsComeIn, TotalIsByOperator};
ghost use Rattle.amber_laws.specs.StepLaws.{OpenLegsTakeOneTotal, SchedulesTakeOneTotal};

/// A run whose log sets no constant and drops no row makes at most the steps of its query, whatever the order in which
/// its workers move and wherever it stops on the way, and exactly these where, and only where, all workers have finished.
pub fn schedules_take_one_total()
    ensures { SchedulesTakeOneTotal }
{}

/// The same holds at each moment of a leg: the steps of a leg that is still open, with those before it, are at most
/// the query's, and exactly these where, and only where, all workers have finished.
pub fn open_legs_take_one_total()
    ensures { OpenLegsTakeOneTotal }
{}

/// The rows that the step total counts for an operator's workers are the operator's rows in the sequential answer, each as
/// often, in some order.
pub fn dealt_rows_are_the_operators()
    ensures { DealtRowsAreTheOperators }
{}

/// The rows that it counts as taken by an operator's workers are as many as come into the operator: a scan's records,
/// else the rows of its inputs.
pub fn taken_rows_come_in()
    ensures { TakenRowsComeIn }
{}

/// The step total is the sum over the operators of what their workers do.
pub fn total_is_by_operator()
    ensures { TotalIsByOperator }
{}
