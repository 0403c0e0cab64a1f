//! The course of the epoch meaning beside its fold.

ghost use Rattle.sial_meaning.specs.CourseLaws.{CourseFollowsTheFold, CourseGoesOn, FirstTrapIsTheFolds, IterationsKeepControl, PardosKeepControl, StepsReachTheCourse};

/// The course of a granted program follows the fold over its tree, up to the first trap that it notes inside a pardo.
pub fn course_follows_the_fold()
    ensures follows { CourseFollowsTheFold }
    ensures first_trap { FirstTrapIsTheFolds }
    ensures reached { StepsReachTheCourse }
    ensures goes_on { CourseGoesOn }
{}

/// Pardos of the course of a granted program, and each of their iterations, keep the control.
pub fn pardos_keep_the_control()
    ensures iterations { IterationsKeepControl }
    ensures pardos { PardosKeepControl }
{}
