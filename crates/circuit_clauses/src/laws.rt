ghost use Rattle.circuit_clauses.specs.Laws.{ClausesLaw, GatesLaw, EvaluationLaw, SizeLaw};

/// Values of the variables meet the clauses of steps exactly where every step holds.
pub fn clauses_law()
    ensures { ClausesLaw }
{}

/// The signal of a gate has the gate's value, whether a step made it or it was there already.
pub fn gates_law()
    ensures { GatesLaw }
{}

/// For any values of the first variables and of the inputs there is exactly one value of each gate's variable.
pub fn evaluation_law()
    ensures { EvaluationLaw }
{}

/// A step adds at most one variable and at most 6 clauses.
pub fn size_law()
    ensures { SizeLaw }
{}
