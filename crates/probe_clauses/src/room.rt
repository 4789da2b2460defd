ghost use Rattle.std.specs.Prelude.{◌≡◌, ◌≤◌, ◌+◌, ◌*◌, ◌^◌, length, IsTrue};
ghost use Rattle.circuit_clauses.specs.Formulas.{Fits};
ghost use Rattle.clause_builds.specs.Builds.{after};
ghost use Rattle.probe_clauses.specs.Probings.{probing_of};
ghost use Rattle.probe_clauses.specs.Parts.{probe_part};

use crate::run::ProbedRun;
use circuit_clauses::Form;

/// Whether the clauses about probes surely fit into a form: by the numbers of bits and cycles and the order, for orders
/// from 1 to 64. It takes no memory.
pub fn can_add_probes(form: &Form, run: &ProbedRun<'_>) -> bool
    ensures { IsTrue result → Fits (after form.now (probe_part (probing_of run.now))) }
{
    let _cells = run.cells(); // the graph is built
    let bits = u64::from(run.bits());
    let cycles = run.cycles() as u64;
    let order = run.order() as u64;
    if order < 1 || order > 64 || cycles > 65_536 {
        return false;
    }
    let places = times(bits, cycles);
    if places > 1 << 30 {
        return false;
    }
    let vars = times(bits, 3 * order + 4) + times(places, 6 * order + 7) + 3 * cycles;
    let clauses = times(bits, 12 * order + 13) + times(places, 24 * order + 24) + 12 * cycles + 1;
    has_room(form, vars, clauses)
}

fn has_room(form: &Form, vars: u64, clauses: u64) -> bool
    requires vars { vars ≤ 2 ^ 60 }
    requires clauses { clauses ≤ 2 ^ 60 }
    ensures vars { IsTrue result → form.now.vars + vars ≤ 2 ^ 30 }
    ensures clauses { IsTrue result → length form.now.clauses + clauses ≤ 2 ^ 31 }
{
    u64::from(form.vars()) + vars <= 1 << 30 && u64::from(form.store().count()) + clauses <= 1 << 31
}

fn times(a: u64, b: u64) -> u64
    requires a { a ≤ 2 ^ 32 }
    requires b { b ≤ 2 ^ 16 }
    ensures product { result ≡ a * b }
    ensures small { result ≤ 2 ^ 48 }
{
    a * b
}
