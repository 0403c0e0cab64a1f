//! What granted programs give a worker.

ghost use Rattle.exec_core.specs.RunLaws.{GoodWorkRunsWell, WorkRunsWell};

/// What a worker's calls need of its work holds of good work.
#[tactic(auto, using(crate::proofs::GrantedLemmas::good_runs_well))]
pub fn good_work_runs_well()
    ensures { GoodWorkRunsWell }
{}

/// It holds of whatever work a sound program has left, after any number of steps from its start.
#[tactic(auto, using(crate::proofs::GrantedLemmas::reached_runs_well))]
pub fn work_runs_well()
    ensures { WorkRunsWell }
{}
