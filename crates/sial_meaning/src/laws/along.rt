//! What holds along the course: epochs, copies, blocks and counts.

ghost use Rattle.sial_meaning.specs.AlongLaws.{BlocksAreCopiesWritten, CountsRise, EpochWritesFit, EpochsRise, OneEpochOneCopy, PointsAreWhole, PointsHaveNumbers, SameCountsOnePoint, StepsTouchInTheirEpochs, SyncsSayEpochs, WritesFit};
ghost use Rattle.sial_meaning.specs.Resets.{PartialsAreSums};

/// Epochs never fall, each has one copy, accesses carry the epochs of their points, and the blocks are the copies with what was written since.
pub fn epochs_along_the_course()
    ensures rise { EpochsRise }
    ensures copies { OneEpochOneCopy }
    ensures touches { StepsTouchInTheirEpochs }
    ensures blocks { BlocksAreCopiesWritten }
{}

/// Counts of sync points and pardos never fall, they say the epochs, and tell the points at which workers meet or enter a pardo.
pub fn counts_along_the_course()
    ensures rise { CountsRise }
    ensures epochs { SyncsSayEpochs }
    ensures points { SameCountsOnePoint }
{}

/// Each point of the course of a sound setting is whole and has numbers alone, behind noted traps too.
pub fn points_are_whole()
    ensures whole { PointsAreWhole }
    ensures numbers { PointsHaveNumbers }
{}

/// At each point of the course the number of a partial scalar is the sum of the additions behind its last reset.
pub fn partials_are_sums()
    ensures { PartialsAreSums }
{}

/// Each write of a step of the course of a sound setting has as many elements as its block, and as the copy from the beginning of the epoch.
pub fn writes_fit_their_blocks()
    ensures step { WritesFit }
    ensures epoch { EpochWritesFit }
{}
