ghost use Rattle.clause_solver.specs.Laws.{FewLines, NoneAfterEmpty};

/// A law on derivations: over `n` variables there are fewer than 3 to the power `n` lines that are valid and new and
/// not empty. So a solver with as many steps never spends them all.
pub fn few_lines()
    ensures { FewLines }
{}

/// A law on derivations: where some clause is empty there is no line that is valid and new and not empty. So a solver
/// over such clauses never spends its steps.
pub fn none_after_empty()
    ensures { NoneAfterEmpty }
{}
