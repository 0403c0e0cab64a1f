//! The rest of the work in the code: laws that the worker's proofs cite.

ghost use Rattle.code_places.specs.ItemLaws.{ItemTold, LoopsHaveHeads, PardosHaveHeads, WheresStand};
ghost use Rattle.code_places.specs.Leads.{ControlIsLed, StepIsLed};
ghost use Rattle.code_places.specs.NameLaws.{ScalarsAreNamed};
ghost use Rattle.code_places.specs.PushLaws.{PushFollows, PushHasPlace, PushKeepsReturns, PushKeepsValues, ReturnsAreDepth};
ghost use Rattle.code_places.specs.StartLaws.{HeadIs, StartsAtFirst, StartsWithoutCalls, WorkStarts};
ghost use Rattle.code_places.specs.StepLaws.{ControlFollows, ProceduresFollow, StepFollows, StepsFollow};

/// The work of a program starts in its code, at the first instruction.
pub fn work_starts_in_the_code()
    ensures starts { WorkStarts }
    ensures first { StartsAtFirst }
    ensures calls { StartsWithoutCalls }
{}

/// The cursor stands at the instruction that the first item of the rest says.
pub fn head_is_at_the_cursor()
    ensures head { HeadIs }
{}

/// A body in the code, before the rest that stands behind it.
pub fn bodies_are_pushed()
    ensures place { PushHasPlace }
    ensures follows { PushFollows }
    ensures returns { PushKeepsReturns }
    ensures values { PushKeepsValues }
{}

/// Each step keeps to the code.
pub fn steps_keep_to_the_code()
    ensures procedures { ProceduresFollow }
    ensures control { ControlFollows }
    ensures step { StepFollows }
    ensures steps { StepsFollow }
{}

/// The instruction at the cursor tells the first item of the rest; loops and pardos in progress have their heads in the code.
pub fn instructions_tell_the_work()
    ensures item { ItemTold }
    ensures loops { LoopsHaveHeads }
    ensures pardos { PardosHaveHeads }
    ensures wheres { WheresStand }
{}

/// Each step goes where the instruction at the cursor leads.
pub fn instructions_lead_the_cursor()
    ensures control { ControlIsLed }
    ensures step { StepIsLed }
{}

/// The stack of places to return to is as deep as the calls in progress.
pub fn returns_are_counted()
    ensures depth { ReturnsAreDepth }
{}

/// The text of a scalar's entry is its name.
pub fn scalars_are_named()
    ensures named { ScalarsAreNamed }
{}
