// Laws of the clauses of nodes, each a call without effect whose clause says it.
ghost use Rattle.node_clauses.specs.Laws.{SizeLaw};

/// A node takes at most 8 variables and 40 clauses.
pub fn size_law()
    ensures { SizeLaw }
{}
