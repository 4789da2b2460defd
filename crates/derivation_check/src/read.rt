ghost use Rattle.std.specs.Prelude.{◌≡◌, ℕ, ◌≤◌, ◌++◌, List, MatchBool, MatchResult, IfOk, IfErr, IfSome, IfNone};
ghost use Rattle.clause_store.specs.declared.line.Line.{Line};
ghost use Rattle.derivation_check.specs.declared.read.ProofFault.TheVariants.{Memory};
ghost use Rattle.derivation_check.specs.Texts.{head_text, IsProofText};
ghost use Rattle.derivation_check.specs.Faults.{IsFault};

use crate::items::read_line;
use crate::reader::Reader;
use clause_store::Derivation;
use coco_base::{List, NoMemory};
use std::alloc::Global;

/// Why a proof text was not read.
#[derive(Clone, Copy, Debug, PartialEq, Eq)]
pub enum ProofFault {
    /// The least line, numbered from 1, that is outside the text: it is missing, too many or of another form.
    BadLine { line: u32 },
    Memory,
}

impl From<NoMemory> for ProofFault {
    ghost from_gives = { λ _ e. e ≡ Memory };

    fn from(_: NoMemory) -> Self {
        ProofFault::Memory
    }
}

/// Takes a text, if it comes next.
fn take_text(reader: &mut Reader, text: &[u8]) -> bool
    ensures { MatchBool result (reader.old ≡ text.now ++ reader.new)
        ((more : List ℕ) → reader.old ≡ text.now ++ more → ⊥) }
{
    'taking: for byte in text {
        if !reader.take(*byte) {
            return false;
        }
    }
    true
}

/// Reads the first line of a proof text, which has the number of the lines behind it.
fn read_head(reader: &mut Reader) -> Option<u32>
    ensures some { IfSome result (λ count. (count ≤ 2147483647) × (reader.old ≡ head_text count ++ reader.new)) }
    ensures none { IfNone result ((count : ℕ) (more : List ℕ) → count ≤ 2147483647 →
        reader.old ≡ head_text count ++ more → ⊥) }
{
    if !take_text(reader, b"proof ") {
        return None;
    }
    reader.number(b'\n')
}

/// Reads the whole text of a derivation.
fn read_all(alloc: Global, reader: &mut Reader) -> Result<Derivation, ProofFault>
    ensures read { IfOk result (λ d. IsProofText reader.old d.lines) }
    ensures fault { IfErr result (IsFault reader.old) }
{
    let Some(count) = read_head(reader) else {
        return Err(ProofFault::BadLine { line: 1 });
    };
    let mut lines = List::new(alloc);
    'reading: for place in 0..count {
        let Some(line) = read_line(alloc, reader)? else {
            return Err(ProofFault::BadLine { line: place + 2 });
        };
        lines.push(line)?;
    }
    if !reader.is_at_end() {
        return Err(ProofFault::BadLine { line: count + 2 });
    }
    Ok(Derivation { lines })
}

/// Reads the text of a derivation: `proof LINES` and as many lines as `print_derivation` writes them. Numbers are
/// from 1 to 2147483647 without leading zeros, but for that of the lines, which may be 0; the literals of a line
/// ascend strictly by variable. It takes memory by the lines that are there.
pub fn read_derivation(alloc: Global, bytes: &[u8]) -> Result<Derivation, ProofFault>
    ensures read { IfOk result (λ d. IsProofText bytes.now d.lines) }
    ensures fault { IfErr result (IsFault bytes.now) }
    // what was printed is read again
    ensures again { (lines : List Line) → IsProofText bytes.now lines →
        MatchResult result (λ d. d.lines ≡ lines) (λ e. e ≡ Memory) }
{
    read_all(alloc, &mut Reader::new(bytes))
}
