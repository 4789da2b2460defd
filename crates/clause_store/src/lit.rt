ghost use Rattle.std.specs.Prelude.{IsTrue, ◌↔◌};
ghost use Rattle.clause_store.specs.Signs.{Ascends};

/// A literal: a variable, numbered from 0, with its sign. It is true where the variable has the value `positive`.
#[derive(Clone, Copy, Debug, PartialEq, Eq)]
pub struct Lit {
    pub var: u32,
    pub positive: bool,
}

/// Whether the variables ascend strictly, so that the literals are a clause.
pub fn is_ascending(lits: &[Lit]) -> bool
    ensures { IsTrue result ↔ Ascends lits.now }
{
    'comparing: for i in 1..lits.len() {
        if lits[i].var <= lits[i - 1].var {
            return false;
        }
    }
    true
}
