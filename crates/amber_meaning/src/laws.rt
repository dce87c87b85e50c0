//! Laws of legal logs. Each function does nothing; its contract is the law, stated in `specs/Laws.antt` and
//! `specs/Given.antt`.

ghost use Rattle.amber_meaning.specs.Given.{FinishedOperatorsRefuse, KeysMayBeSorted, OneWorkerRefusesAlone};
ghost use Rattle.amber_meaning.specs.Laws.{EndsClose, FlowsSendForward, FrontsAreLegal, ItemsHaveOneState, LegalLogsGrow, LegalLogsHaveOneState, LegalLogsRest, LegsHaveOneState, LegsOpen, RunsClose, TranscriptsGrow};

/// A beginning of a legal log is legal: whatever was written before the last items is a log of its own, which can
/// be replayed, and from which a run can go on.
pub fn fronts_are_legal()
    ensures { FrontsAreLegal }
{}

/// A legal log that an item may follow, with an item that has a text and leads on from the state that was
/// reached, is legal and leads to that item's state.
pub fn legal_logs_grow()
    ensures { LegalLogsGrow }
{}

/// In a workflow whoever sends to a worker has a smaller number. So in a leg the parts of the senders stand before
/// those of the receivers.
pub fn flows_send_forward()
    ensures { FlowsSendForward }
{}

/// What items lead to, step by step and each by its rule, is what the plain computation gives: a log leads to one
/// state, whoever wrote it and in whatever order the workers moved.
pub fn items_have_one_state()
    ensures { ItemsHaveOneState }
{}

/// What the workers did in a leg leads to the state that is computed from the leg's parts, in which each batch is
/// looked up among those that its sender has made by the end of the leg.
pub fn legs_have_one_state()
    ensures { LegsHaveOneState }
{}

/// A legal log leads to the state that is computed from its items, so its transcript, which is computed too, speaks
/// of the states that the log has been through.
pub fn legal_logs_have_one_state()
    ensures { LegalLogsHaveOneState }
{}

/// The transcript of a log with an item more is that of the log, and then the reply to the item in the state
/// after the log.
pub fn transcripts_grow()
    ensures { TranscriptsGrow }
{}

/// The state that a legal log leads to is one between legs: each worker has a position, no hand holds a unit, what was
/// taken is what the senders have made, and the steps are no more than they may be.
pub fn legal_logs_rest()
    ensures { LegalLogsRest }
{}

/// A leg may be opened after a legal log that an item may follow. Nobody has worked yet, and the workers
/// stand as the leg begins: pauses are over, and held rows may go.
pub fn legs_open()
    ensures { LegsOpen }
{}

/// An open leg up to a stop, closed as its workers stand, is an item more of a legal log.
pub fn runs_close()
    ensures { RunsClose }
{}

/// An open leg to the end, closed as its workers stand, is an item more of a legal log.
pub fn ends_close()
    ensures { EndsClose }
{}

/// What an operator with one worker has refused is what that worker has.
pub fn one_worker_refuses_alone()
    ensures { OneWorkerRefusesAlone }
{}

/// Once all workers of an operator have finished, what they have refused is what the answer says of the operator. Before,
/// a group's worker that has not finished has refused no key.
pub fn finished_operators_refuse()
    ensures { FinishedOperatorsRefuse }
{}

/// Refused keys may be sorted worker by worker, and all of them again.
pub fn keys_may_be_sorted()
    ensures { KeysMayBeSorted }
{}
