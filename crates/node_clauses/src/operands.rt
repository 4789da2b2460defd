// What a gate hands on to its operands.
ghost use Rattle.std.specs.Prelude.{◌≡◌, ◌<◌, length, get_or, OnOk, ℕ, false};
ghost use Rattle.circuit_clauses.specs.Formulas.{Fits};
ghost use Rattle.clause_builds.specs.Builds.{made, after};
ghost use Rattle.clause_builds.specs.Rows.{signal_at};
ghost use Rattle.node_clauses.specs.Sums.{add_operand, add_operands, is_false, AreChosenBelow};

use crate::choices::PLACES;
use circuit_clauses::{Form, Signal};
use clause_builds::xor_into;
use coco_base::NoMemory;

/// A gate adds what it stands for to its operands, where its choice has their places.
pub(crate) fn add_operands(
    form: &mut Form,
    selected: [Signal; 4],
    operands: [u32; 4],
    weight: Signal,
    weights: &mut [Signal],
) -> Result<(), NoMemory>
    requires places { AreChosenBelow selected operands (length weights.old) }
    requires fits { Fits (after form.old (add_operands selected operands weight weights.old)) }
    ensures signals { OnOk result (weights.new ≡ made form.old (add_operands selected operands weight weights.old)) }
    ensures formula { OnOk result (form.new ≡ after form.old (add_operands selected operands weight weights.old)) }
    ensures length { length weights.new ≡ length weights.old }
{
    'places: for place in 0..PLACES {
        add_operand(
            form,
            selected[place],
            operands[place] as usize,
            weight,
            weights,
        )?;
    }
    Ok(())
}

// A gate adds what it stands for to an operand, where its choice has the operand's place.
fn add_operand(
    form: &mut Form,
    chosen: Signal,
    operand: usize,
    weight: Signal,
    weights: &mut [Signal],
) -> Result<(), NoMemory>
    requires place { is_false chosen ≡ false → operand < length weights.old }
    requires fits { Fits (after form.old (add_operand chosen operand weight weights.old)) }
    ensures signals { OnOk result (weights.new ≡ made form.old (add_operand chosen operand weight weights.old)) }
    ensures formula { OnOk result (form.new ≡ after form.old (add_operand chosen operand weight weights.old)) }
    ensures length { length weights.new ≡ length weights.old }
{
    if is_false(chosen) {
        return Ok(());
    }
    xor_into(form, weights, operand, chosen, weight)
}

fn is_false(signal: Signal) -> bool
    ensures { result ≡ is_false signal }
{
    matches!(signal, Signal::Constant(false))
}
