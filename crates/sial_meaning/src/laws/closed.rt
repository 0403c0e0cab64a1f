//! Names that crates above cite without opening them.

ghost use Rattle.sial_meaning.specs.ClosedLaws.{ClosedNamesAreOpen, LocalStepsKeepTheFrame};

/// Each closed name is the definition that it stands for, and a local step keeps the numbers of the indices and the created flags.
pub fn closed_names_are_open()
    ensures names { ClosedNamesAreOpen }
    ensures frame { LocalStepsKeepTheFrame }
{}
