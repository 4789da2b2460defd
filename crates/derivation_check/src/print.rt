ghost use Rattle.std.specs.Prelude.{◌≡◌, ℕ, ◌+◌, ◌++◌, ◌∷◌, [], IfOk, OnOk, decimal};
ghost use Rattle.std.specs.String.{string_bytes};
ghost use Rattle.derivation_check.specs.Texts.{index_text, lit_text, lits_text, formula_text, cut_text, cuts_text, line_text, derivation_text};

use clause_store::{Cut, Derivation, Line, Lit, Store};
use coco_base::NoMemory;
use std::alloc::Global;

fn push_index(text: &mut String, index: u32) -> Result<(), NoMemory>
    ensures { OnOk result (string_bytes text.new ≡ string_bytes text.old ++ index_text index) }
{
    let number = u64::from(index) + 1;
    write!(text, "{number} ")?;
    Ok(())
}

fn push_lit(text: &mut String, lit: Lit) -> Result<(), NoMemory>
    ensures { OnOk result (string_bytes text.new ≡ string_bytes text.old ++ lit_text lit) }
{
    if !lit.positive {
        text.push('-')?;
    }
    push_index(text, lit.var)
}

fn push_lits(text: &mut String, lits: &[Lit]) -> Result<(), NoMemory>
    ensures { OnOk result (string_bytes text.new ≡ string_bytes text.old ++ lits_text lits.now) }
{
    'printing: for lit in lits {
        push_lit(text, *lit)?;
    }
    Ok(())
}

fn push_cuts(text: &mut String, cuts: &[Cut]) -> Result<(), NoMemory>
    ensures { OnOk result (string_bytes text.new ≡ string_bytes text.old ++ cuts_text cuts.now) }
{
    'printing: for cut in cuts {
        push_index(text, cut.var)?;
        push_index(text, cut.id)?;
    }
    Ok(())
}

fn push_line(text: &mut String, line: &Line) -> Result<(), NoMemory>
    ensures { OnOk result (string_bytes text.new ≡ string_bytes text.old ++ line_text line.now) }
{
    push_lits(text, line.clause.as_slice())?;
    text.push_str("0 ")?;
    push_index(text, line.first)?;
    push_cuts(text, line.cuts.as_slice())?;
    text.push_str("0\n")?;
    Ok(())
}

/// The clauses of a store over `vars` variables as a formula in the DIMACS format: `p cnf VARIABLES CLAUSES` and a
/// line for each clause, its literals and `0` with single spaces between. Variable `v` is printed as `v + 1`.
pub fn print_formula(alloc: Global, store: &Store, vars: u32) -> Result<Vec<u8>, NoMemory>
    ensures { IfOk result (λ text. text.items ≡ formula_text store.now vars) }
{
    let count = store.count();
    let mut text = format!(in alloc; "p cnf {vars} {count}\n")?;
    'printing: for id in 0..count {
        push_lits(&mut text, store.get(id))?;
        text.push_str("0\n")?;
    }
    Ok(text.into_bytes())
}

/// A derivation as text: `proof LINES` and the lines. A line has the literals of its clause, `0`, the number of its
/// first clause, the variable and the clause of each cut, and `0`, with single spaces between. Variables and clauses
/// are counted from 1.
pub fn print_derivation(alloc: Global, derivation: &Derivation) -> Result<Vec<u8>, NoMemory>
    ensures { IfOk result (λ text. text.items ≡ derivation_text derivation.now.lines) }
{
    let count = derivation.lines.len();
    let mut text = format!(in alloc; "proof {count}\n")?;
    'printing: for line in derivation.lines.as_slice() {
        push_line(&mut text, line)?;
    }
    Ok(text.into_bytes())
}
