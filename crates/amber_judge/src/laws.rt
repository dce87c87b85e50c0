//! Laws of the tests. Each function does nothing; its contract is the law, stated in `specs/TestLaws.antt`.

ghost use Rattle.amber_judge.specs.TestLaws.{LogsAreTested, RulesAreTested};

/// For each entry of a journal a test says whether its rule holds, exactly.
pub fn rules_are_tested()
    ensures { RulesAreTested }
{}

/// A test says whether items lead on from a state, each by its rule: it is true exactly where they do. So the first
/// item that cannot follow can be found by computing.
pub fn logs_are_tested()
    ensures { LogsAreTested }
{}
