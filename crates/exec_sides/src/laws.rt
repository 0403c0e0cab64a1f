//! What holds of assignments apart from what they come to.

ghost use Rattle.exec_sides.specs.Forgetting.{OldNumbersAreForgotten};
ghost use Rattle.exec_sides.specs.Once.{InstructionsNameOnce};

/// With `=`, and a right side that names all of the target, nothing depends on the target's old numbers.
#[tactic(auto, using(crate::proofs::Forgetting::old_forgotten))]
pub fn old_numbers_are_forgotten()
    ensures { OldNumbersAreForgotten }
{}

/// No instruction of a granted program names an index twice in one block or in its slots.
#[tactic(auto, using(crate::proofs::Once::instructions_once))]
pub fn instructions_name_once()
    ensures { InstructionsNameOnce }
{}
