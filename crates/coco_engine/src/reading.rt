ghost use Rattle.std.specs.Prelude.{◌≡◌, ◌++◌, ◌-◌, ◌≤◌, ◌<◌, length, take, drop, vec_len, IfOk, IsErrOf};
ghost use Rattle.coco_base.specs.Causes.{Rose};
ghost use Rattle.coco_base.specs.Outside.{IsContent};
ghost use Rattle.coco_engine.specs.Files.{IsLonger, file_limit};

use coco_base::{NoMemory, Shelf};
use std::alloc::Global;

/// The most bytes that a file may have.
const LIMIT: usize = 134_217_728;

/// The bytes that are asked for at once.
const PIECE: usize = 65_536;

/// Why a file was not read.
#[derive(Clone, Copy, Debug, PartialEq, Eq)]
pub enum ReadStop {
    /// It has more bytes than are read.
    Long,
    /// The shelf refused a call.
    Failed,
    /// Memory was refused.
    Memory,
}

fn buffer(alloc: Global, size: usize) -> Result<Vec<u8>, NoMemory>
    ensures { IfOk result (λ v. vec_len v ≡ size) }
{
    Ok(vec![in alloc; 0u8; size]?)
}

fn front(bytes: &[u8], count: usize) -> &[u8]
    requires { count ≤ length bytes.now }
    ensures value { result.now ≡ take count bytes.now }
    ensures len { length result.now ≡ count }
{
    &bytes[..count]
}

/// The bytes of a file. Each turn of the loop takes at least one byte, so it ends at the limit.
pub fn read_whole<F: Shelf>(alloc: Global, shelf: &mut F, name: &str) -> Result<Vec<u8>, ReadStop>
    ensures content { IfOk result (λ v. IsContent (F.holds shelf.old name.now) v.items) }
    ensures short { IfOk result (λ v. vec_len v ≤ file_limit) }
    ensures long { IsErrOf result ReadStop.Long → IsLonger file_limit (F.holds shelf.old name.now) }
    ensures failed { IsErrOf result ReadStop.Failed → Rose (F.faults shelf.old) (F.faults shelf.new) }
    ensures later { F.faults shelf.old ≤ F.faults shelf.new }
    ensures held { F.holds shelf.new ≡ F.holds shelf.old }
{
    let mut bytes = Vec::new(alloc);
    let Ok(mut piece) = buffer(alloc, PIECE) else {
        return Err(ReadStop::Memory);
    };
    let piece = piece.as_mut_slice();
    'reading: while bytes.len() <= LIMIT {
        let at = bytes.len() as u64;
        let Ok(count) = shelf.read(name, at, piece) else {
            return Err(ReadStop::Failed);
        };
        if count == 0 {
            return Ok(bytes);
        }
        let Ok(()) = bytes.extend_from_slice(front(piece, count)) else {
            return Err(ReadStop::Memory);
        };
    }
    Err(ReadStop::Long)
}
