//! Worked programs, run by the machine's definitions: laws that show what these come to, with nothing to run.
#![tactic(auto)]

ghost use Rattle.machine_worked.specs.AgainRuns.{AgainRecorded};
ghost use Rattle.machine_worked.specs.Big.{big};
ghost use Rattle.machine_worked.specs.BarrierRuns.{BarrierRecorded};
ghost use Rattle.machine_worked.specs.ChunksRuns.{ChunksCounted, ChunksRecorded};
ghost use Rattle.machine_worked.specs.ClashRuns.{ClashRecorded};
ghost use Rattle.machine_worked.specs.DiskRuns.{DiskRecorded};
ghost use Rattle.machine_worked.specs.FirstRuns.{FirstRecorded};
ghost use Rattle.machine_worked.specs.GoneRuns.{GoneRecorded};
ghost use Rattle.machine_worked.specs.MixRuns.{MixRecorded};
ghost use Rattle.machine_worked.specs.Needs.{NeedsAreCounted};
ghost use Rattle.machine_worked.specs.SmallRuns.{SmallRecorded};
ghost use Rattle.machine_worked.specs.TightRuns.{TightRecorded};
ghost use Rattle.machine_worked.specs.TopRuns.{TopRecorded};
ghost use Rattle.machine_worked.specs.TwiceRuns.{TwiceRecorded};
ghost use Rattle.sial_meaning.specs.Sound.{IsSound};

/// Recorded runs that end done, entry by entry: which are enabled, which is taken, what it does, and what is printed.
pub fn worked_runs()
    ensures barrier { BarrierRecorded }
    ensures first { FirstRecorded }
    ensures chunks { ChunksRecorded }
    ensures small { SmallRecorded }
    ensures tight { TightRecorded }
    ensures gone { GoneRecorded }
    ensures again { AgainRecorded }
    ensures disk { DiskRecorded }
    ensures top { TopRecorded }
{}

/// Recorded runs that end with a conflict or a trap.
pub fn worked_ends()
    ensures clash { ClashRecorded }
    ensures mix { MixRecorded }
    ensures twice { TwiceRecorded }
{}

/// Slots, words and entries that programs need, and that the large one among them is sound.
pub fn worked_needs()
    ensures counted { NeedsAreCounted }
    ensures sound { IsSound big }
{}

/// How many entries a pardo has with nothing inside.
pub fn worked_chunks()
    ensures { ChunksCounted }
{}
