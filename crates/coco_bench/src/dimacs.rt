use crate::formula::{Formula, add};
use clause_store::{Lit, Store};
use coco_base::NoMemory;
use std::alloc::Global;

/// The formula of a text in the DIMACS form, one clause a line: numbers of literals and a 0. Lines that begin with `c`
/// or `p` say nothing here, and words that are no numbers end a clause. A literal that stands twice in a clause counts
/// once, and a clause with a variable in both signs, which all values meet, is left out.
pub(crate) fn read(alloc: Global, text: &str) -> Result<Formula, NoMemory> {
    let mut store = Store::new(alloc);
    let mut vars = 0u32;
    for line in text.lines() {
        if line.starts_with('c') || line.starts_with('p') {
            continue;
        }
        let mut lits = Vec::new(alloc);
        for word in line.split_whitespace() {
            match literal(word) {
                Some(lit) => {
                    vars = vars.max(lit.var.saturating_add(1));
                    lits.push(lit)?;
                }
                None => break,
            }
        }
        lits.sort_unstable_by_key(|lit| lit.var);
        lits.dedup();
        add(&mut store, lits.as_slice())?;
    }
    Ok(Formula { store, vars })
}

/// The literal of a DIMACS number: variables count from 1 there, and a sign is written before them.
fn literal(word: &str) -> Option<Lit> {
    let number = word.parse::<i32>().ok()?;
    Some(Lit {
        var: number.unsigned_abs().checked_sub(1)?,
        positive: number > 0,
    })
}
