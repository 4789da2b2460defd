ghost use Rattle.std.specs.Prelude.{◌≡◌, ℕ, ◌<◌, ◌≤◌, ◌++◌, ◌∷◌, [], List, All, MatchBool, IfOk, IfSome, IfNone};
ghost use Rattle.clause_store.specs.declared.lit.Lit.{Lit};
ghost use Rattle.clause_store.specs.declared.line.Cut.{Cut};
ghost use Rattle.clause_store.specs.declared.line.Line.{Line};
ghost use Rattle.derivation_check.specs.Texts.{index_text, lit_text, lits_text, cut_text, cuts_text, line_text, IsIndex, IsLitInRange, IsCutInRange, IsPrintable};

use crate::reader::Reader;
use clause_store::{Cut, Line, Lit, is_ascending};
use coco_base::{List, NoMemory};
use std::alloc::Global;

/// Reads a number from 1 on with the space behind it, and gives it counted from 0.
fn read_index(reader: &mut Reader) -> Option<u32>
    ensures some { IfSome result (λ n. IsIndex n × (reader.old ≡ index_text n ++ reader.new)) }
    ensures none { IfNone result ((n : ℕ) (more : List ℕ) → IsIndex n → reader.old ≡ index_text n ++ more → ⊥) }
{
    let Some(number) = reader.number(b' ') else {
        return None;
    };
    if number == 0 {
        return None;
    }
    Some(number - 1)
}

fn read_lit(reader: &mut Reader) -> Option<Lit>
    ensures some { IfSome result (λ l. IsLitInRange l × (reader.old ≡ lit_text l ++ reader.new)) }
    ensures none { IfNone result ((l : Lit) (more : List ℕ) → IsLitInRange l → reader.old ≡ lit_text l ++ more → ⊥) }
{
    if reader.take(b'-') {
        let Some(var) = read_index(reader) else {
            return None;
        };
        return Some(Lit {
            var,
            positive: false,
        });
    }
    let Some(var) = read_index(reader) else {
        return None;
    };
    Some(Lit {
        var,
        positive: true,
    })
}

fn read_cut(reader: &mut Reader) -> Option<Cut>
    ensures some { IfSome result (λ cut. IsCutInRange cut × (reader.old ≡ cut_text cut ++ reader.new)) }
    ensures none { IfNone result ((c : Cut) (more : List ℕ) → IsCutInRange c → reader.old ≡ cut_text c ++ more → ⊥) }
{
    let Some(var) = read_index(reader) else {
        return None;
    };
    let Some(id) = read_index(reader) else {
        return None;
    };
    Some(Cut { var, id })
}

/// Reads literals up to a 0 with a space behind it.
fn read_lits(alloc: Global, reader: &mut Reader) -> Result<Option<List<Lit>>, NoMemory>
    ensures some { IfOk result (λ o. IfSome o (λ lits. All IsLitInRange lits ×
        (reader.old ≡ lits_text lits ++ 48 ∷ 32 ∷ reader.new))) }
    ensures none { IfOk result (λ o. IfNone o ((lits : List Lit) (more : List ℕ) → All IsLitInRange lits →
        reader.old ≡ lits_text lits ++ 48 ∷ 32 ∷ more → ⊥)) }
{
    let mut lits = List::new(alloc);
    'reading: loop {
        if reader.take_zero(b' ') {
            return Ok(Some(lits));
        }
        let Some(lit) = read_lit(reader) else {
            return Ok(None);
        };
        lits.push(lit)?;
    }
}

/// Reads cuts up to a 0 at the end of the line.
fn read_cuts(alloc: Global, reader: &mut Reader) -> Result<Option<List<Cut>>, NoMemory>
    ensures some { IfOk result (λ o. IfSome o (λ cuts. All IsCutInRange cuts ×
        (reader.old ≡ cuts_text cuts ++ 48 ∷ 10 ∷ reader.new))) }
    ensures none { IfOk result (λ o. IfNone o ((cuts : List Cut) (more : List ℕ) → All IsCutInRange cuts →
        reader.old ≡ cuts_text cuts ++ 48 ∷ 10 ∷ more → ⊥)) }
{
    let mut cuts = List::new(alloc);
    'reading: loop {
        if reader.take_zero(b'\n') {
            return Ok(Some(cuts));
        }
        let Some(cut) = read_cut(reader) else {
            return Ok(None);
        };
        cuts.push(cut)?;
    }
}

/// Reads a line of a derivation, or tells that there is none.
pub(crate) fn read_line(alloc: Global, reader: &mut Reader) -> Result<Option<Line>, NoMemory>
    ensures some { IfOk result (λ o. IfSome o (λ l. IsPrintable l × (reader.old ≡ line_text l ++ reader.new))) }
    ensures none { IfOk result (λ o. IfNone o ((line : Line) (more : List ℕ) → IsPrintable line →
        reader.old ≡ line_text line ++ more → ⊥)) }
{
    let Some(clause) = read_lits(alloc, reader)? else {
        return Ok(None);
    };
    if !is_ascending(clause.as_slice()) {
        return Ok(None);
    }
    let Some(first) = read_index(reader) else {
        return Ok(None);
    };
    let Some(cuts) = read_cuts(alloc, reader)? else {
        return Ok(None);
    };
    Ok(Some(Line {
        clause,
        first,
        cuts,
    }))
}
