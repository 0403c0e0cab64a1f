//! Laws of the first profile, with nothing to run.

ghost use Rattle.first_profile.specs.FirstLaws.{FirstHasNoTrap, GrantedIsReady, GrantedTreesRun};

/// A program of the first profile in a setting that is ready has no trap.
pub fn first_programs_have_no_trap()
    ensures { FirstHasNoTrap }
{}

/// What the rules grant is ready for a run.
pub fn granted_programs_are_ready()
    ensures { GrantedIsReady }
{}

/// What the rules grant comes to its end, where its tree is of the first profile.
pub fn granted_trees_run()
    ensures { GrantedTreesRun }
{}
