ghost use Rattle.std.specs.Prelude.{◌≡◌, ℕ};
ghost use Rattle.clause_solver.specs.Propagation.{IsInRange, IsStanding};

use crate::trail::Trail;
use clause_store::Lit;

/// How a clause stands under a trail.
#[derive(Clone, Copy, Debug)]
pub(crate) enum Standing {
    /// Some literal is true.
    Met,
    /// Two literals at least are open, and none that was looked at is true.
    Loose,
    /// This literal is open and all others are false.
    Unit(Lit),
    /// All literals are false.
    Broken,
}

/// How the clause stands under the trail.
pub(crate) fn judged(trail: &Trail, clause: &[Lit]) -> Standing
    requires { IsInRange trail.now.vars clause.now }
    ensures { IsStanding trail.now.lits clause.now result }
{
    let mut found: Option<Lit> = None;
    'judging: for lit in clause {
        match trail.value(lit.var) {
            Some(sign) => {
                if sign == lit.positive {
                    return Standing::Met;
                }
            }
            None => match found {
                None => {
                    found = Some(*lit);
                }
                Some(_) => return Standing::Loose,
            },
        }
    }
    match found {
        None => Standing::Broken,
        Some(lit) => Standing::Unit(lit),
    }
}
