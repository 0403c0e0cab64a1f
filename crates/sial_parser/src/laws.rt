//! What the grammar and a reading of it say of each other: laws that proofs above cite, with nothing to run.

ghost use Rattle.sial_parser.specs.Laws.{OneTree, ProperTrees, ReadsExactly};

/// A text is read as a tree exactly where both stand together, which is for at most one tree, a proper one.
pub fn texts_and_trees()
    ensures exactly { ReadsExactly }
    ensures one_tree { OneTree }
    ensures proper { ProperTrees }
{}
