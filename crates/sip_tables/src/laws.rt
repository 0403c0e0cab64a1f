//! What the definition of tables says: laws that proofs above cite, with nothing to run.

ghost use Rattle.sip_tables.specs.PlaceLaws.{EntriesAreNumbers, ProceduresStand, StatementsStand, StopStands};
ghost use Rattle.sip_tables.specs.UniqueLaws.{OneProgram};

/// The number of an instruction in the tree is its place in the code.
pub fn places_in_the_code()
    ensures statements { StatementsStand }
    ensures stop { StopStands }
    ensures procedures { ProceduresStand }
    ensures entries { EntriesAreNumbers }
{}

/// Tables tell their program: no two have the same.
pub fn tables_have_one_program()
    ensures program { OneProgram }
{}
