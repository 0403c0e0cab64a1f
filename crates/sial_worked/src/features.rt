//! Programs that show one feature of the language each, run by the definitions: laws with nothing to run.

ghost use Rattle.sial_worked.specs.AllocatedTwice.{AllocatedTwiceRuns};
ghost use Rattle.sial_worked.specs.Beats.{BeatsRuns};
ghost use Rattle.sial_worked.specs.DeletedPut.{DeletedPutRuns};
ghost use Rattle.sial_worked.specs.DeletedTwice.{DeletedTwiceRuns};
ghost use Rattle.sial_worked.specs.Forms.{FormsRuns};
ghost use Rattle.sial_worked.specs.Given.{GivenRuns};
ghost use Rattle.sial_worked.specs.GoesOn.{GoesOnRuns};
ghost use Rattle.sial_worked.specs.Inserted.{InsertedRuns};
ghost use Rattle.sial_worked.specs.Kept.{KeptRuns};
ghost use Rattle.sial_worked.specs.Missing.{MissingRuns};
ghost use Rattle.sial_worked.specs.Named.{NamedRuns};
ghost use Rattle.sial_worked.specs.Nested.{NestedRuns};
ghost use Rattle.sial_worked.specs.NotAllocated.{NotAllocatedRuns};
ghost use Rattle.sial_worked.specs.OtherBlock.{OtherBlockRuns};
ghost use Rattle.sial_worked.specs.OtherSpaces.{SpacesAreRefused};
ghost use Rattle.sial_worked.specs.Parts.{PartsRuns};
ghost use Rattle.sial_worked.specs.Private.{PrivateRuns};
ghost use Rattle.sial_worked.specs.Reset.{ResetRuns};
ghost use Rattle.sial_worked.specs.Rooms.{RoomsRuns};
ghost use Rattle.sial_worked.specs.Rounds.{RoundsRuns};
ghost use Rattle.sial_worked.specs.SecondArray.{SecondArrayRuns};
ghost use Rattle.sial_worked.specs.ServedClash.{ServedClashRuns};
ghost use Rattle.sial_worked.specs.Stale.{StaleRuns};
ghost use Rattle.sial_worked.specs.UnsetAfter.{UnsetAfterRuns};
ghost use Rattle.sial_worked.specs.Wheres.{WheresRuns};

/// What each program comes to: its end, its lines, its accesses and epochs, and its first refusal.
pub fn feature_programs()
    ensures parts { PartsRuns }
    ensures forms { FormsRuns }
    ensures nested { NestedRuns }
    ensures wheres { WheresRuns }
    ensures rooms { RoomsRuns }
    ensures given { GivenRuns }
    ensures kept { KeptRuns }
    ensures other_block { OtherBlockRuns }
    ensures private { PrivateRuns }
    ensures unset_after { UnsetAfterRuns }
    ensures inserted { InsertedRuns }
    ensures missing { MissingRuns }
    ensures deleted_put { DeletedPutRuns }
    ensures deleted_twice { DeletedTwiceRuns }
    ensures allocated_twice { AllocatedTwiceRuns }
    ensures not_allocated { NotAllocatedRuns }
    ensures second_array { SecondArrayRuns }
    ensures served_clash { ServedClashRuns }
    ensures named { NamedRuns }
    ensures reset { ResetRuns }
    ensures rounds { RoundsRuns }
    ensures beats { BeatsRuns }
    ensures stale { StaleRuns }
    ensures goes_on { GoesOnRuns }
{}

/// Spaces that don't fit a program: none of them is the program's.
pub fn other_spaces()
    ensures { SpacesAreRefused }
{}
