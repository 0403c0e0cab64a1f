//! Worked programs, run by the definitions: laws that show what these come to, with nothing to run.

ghost use Rattle.sial_worked.specs.Again.{AgainRuns};
ghost use Rattle.sial_worked.specs.Apart.{ApartRuns};
ghost use Rattle.sial_worked.specs.Barrier.{BarrierRuns};
ghost use Rattle.sial_worked.specs.Bounds.{ConstantsAreAnInputs, NumbersAreBounded};
ghost use Rattle.sial_worked.specs.Chain.{ChainIsRefused};
ghost use Rattle.sial_worked.specs.Chunks.{ChunksRuns, ChunksThreeRuns, ChunksNoneRuns};
ghost use Rattle.sial_worked.specs.Clash.{ClashByEpochs, ClashRuns, ClashAddRuns, ClashMaxRuns};
ghost use Rattle.sial_worked.specs.Counted.{StepsAreCounted, WordsAreCounted};
ghost use Rattle.sial_worked.specs.Disk.{DiskRuns};
ghost use Rattle.sial_worked.specs.First.{FirstRuns};
ghost use Rattle.sial_worked.specs.GoesOn.{GoesOnCourse};
ghost use Rattle.sial_worked.specs.Gone.{GoneRuns};
ghost use Rattle.sial_worked.specs.Later.{EarlierLineFirst, FirstLineFirst};
ghost use Rattle.sial_worked.specs.Mix.{MixRuns};
ghost use Rattle.sial_worked.specs.Order.{OrderRuns, OrderOpenRuns, OrderServedRuns};
ghost use Rattle.sial_worked.specs.Part.{PartIsRefused};
ghost use Rattle.sial_worked.specs.Plain.{PlainRuns};
ghost use Rattle.sial_worked.specs.Shape.{ShapeRuns};
ghost use Rattle.sial_worked.specs.Small.{SmallIsProper, SmallRuns};
ghost use Rattle.sial_worked.specs.Stale.{StaleByEpochs};
ghost use Rattle.sial_worked.specs.Tight.{TightRuns};
ghost use Rattle.sial_worked.specs.Top.{TopRuns};
ghost use Rattle.sial_worked.specs.Turns.{TurnsRuns};
ghost use Rattle.sial_worked.specs.Twice.{TwiceRuns};
ghost use Rattle.sial_worked.specs.TwoFaults.{TwoFaultsOnOneLine, TwoStatementsOnOneLine};
ghost use Rattle.sial_worked.specs.Wrap.{WrapRuns};

/// Each program that the rules grant: its end, its lines, its accesses and epochs, and its first refusal.
pub fn worked_programs()
    ensures plain { PlainRuns }
    ensures barrier { BarrierRuns }
    ensures first { FirstRuns }
    ensures wrap { WrapRuns }
    ensures small { SmallRuns }
    ensures clash { ClashRuns }
    ensures clash_add { ClashAddRuns }
    ensures clash_max { ClashMaxRuns }
    ensures mix { MixRuns }
    ensures apart { ApartRuns }
    ensures order { OrderRuns }
    ensures order_open { OrderOpenRuns }
    ensures order_served { OrderServedRuns }
    ensures gone { GoneRuns }
    ensures again { AgainRuns }
    ensures twice { TwiceRuns }
    ensures turns { TurnsRuns }
    ensures chunks { ChunksRuns }
    ensures chunks_three { ChunksThreeRuns }
    ensures chunks_none { ChunksNoneRuns }
    ensures tight { TightRuns }
    ensures shape { ShapeRuns }
    ensures disk { DiskRuns }
    ensures top { TopRuns }
{}

/// What the rules say of programs that they refuse, and of one that is proper.
pub fn worked_rules()
    ensures part { PartIsRefused }
    ensures small { SmallIsProper }
    ensures too_deep { ChainIsRefused }
    ensures two_faults { TwoFaultsOnOneLine }
    ensures two_statements { TwoStatementsOnOneLine }
    ensures first_line { FirstLineFirst }
    ensures earlier_line { EarlierLineFirst }
{}

/// Which numbers and lines a tree may have, and which constants an input may give.
pub fn worked_bounds()
    ensures numbers { NumbersAreBounded }
    ensures constants { ConstantsAreAnInputs }
{}

/// Epoch meanings and their courses, where these part from the sequential meaning or go on behind a trap.
pub fn worked_epochs()
    ensures clash { ClashByEpochs }
    ensures stale { StaleByEpochs }
    ensures goes_on { GoesOnCourse }
{}

/// Steps and words that a checker of the rule needs.
pub fn worked_costs()
    ensures steps { StepsAreCounted }
    ensures words { WordsAreCounted }
{}
