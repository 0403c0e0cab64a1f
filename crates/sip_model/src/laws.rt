//! Laws of the machine that proofs above cite, with nothing to run.

ghost use Rattle.sip_model.specs.Promises.{BoundedTraffic, OneLeastRecentRun};
ghost use Rattle.sip_model.specs.RunLaws.{ActionsAreActs, EntriesAreSteps, LeastRecentRunsAreComputed, LeastRecentRunsAreLegal, RunsReach};

/// A worker's action, where it has one, is one case of the relation, and each trap is one.
pub fn actions_are_acts()
    ensures { ActionsAreActs }
{}

/// An entry that a choice takes, performed with a permitted drop, is a step of the relation, a trap or a conflict.
pub fn entries_are_steps()
    ensures { EntriesAreSteps }
{}

/// The state of each legal run is one that steps lead to.
pub fn runs_are_reached()
    ensures { RunsReach }
{}

/// Where each dropped block is the one used longest ago, a run is legal.
pub fn least_recent_runs_are_legal()
    ensures { LeastRecentRunsAreLegal }
{}

/// In each state of each legal run a worker has no more cached and awaited blocks, puts and messages of control than it may.
pub fn traffic_is_bounded()
    ensures { BoundedTraffic }
{}

/// Under all choices there is one LRU run of each length up to its end, and that is the computed one.
pub fn least_recent_runs_are_one()
    ensures one { OneLeastRecentRun }
    ensures computed { LeastRecentRunsAreComputed }
{}
