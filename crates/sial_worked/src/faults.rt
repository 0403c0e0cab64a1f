//! Programs with one fault each: laws that show what the rules find in them, with nothing to run.

ghost use Rattle.sial_worked.specs.ChosenFaults.{ChosenFaultsFound};
ghost use Rattle.sial_worked.specs.FaultsFound.{ShapeFaultsFound, SideFaultsFound};

/// Where the fault of each is found, and as which.
pub fn faulty_programs()
    ensures shapes { ShapeFaultsFound }
    ensures sides { SideFaultsFound }
{}

/// What is found first at the edges of the rules, where a choice was made.
pub fn chosen_faults()
    ensures { ChosenFaultsFound }
{}
