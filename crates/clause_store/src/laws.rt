ghost use Rattle.clause_store.specs.Laws.{SignsTellClauses};

/// A law on clauses: those that hold each variable with the same sign are one list of literals. So a resolvent that
/// is given as signs by variable is given as a clause.
pub fn signs_tell_clauses()
    ensures { SignsTellClauses }
{}
