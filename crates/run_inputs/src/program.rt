ghost use Rattle.std.specs.Prelude.{◌≡◌, ◌≢◌, IfOk, IfErr, option_map};
ghost use Rattle.rv_asm.specs.declared.fault.AsmFault.TheVariants.{Memory};
ghost use Rattle.run_inputs.specs.Prepared.{IsProgram, IsProgramFault};

use coco_base::List;
use rv_asm::{AsmFault, Image, assemble, read_words};
use std::alloc::Global;

/// The words of a program's file, of words or of assembly; none without a file.
pub(crate) fn program_of(
    alloc: Global,
    word_file: bool,
    program: Option<&[u8]>,
) -> Result<Image, AsmFault>
    ensures image { IfOk result (IsProgram word_file (option_map (λ bytes. bytes.now) program.entry)) }
    ensures fault { IfErr result (λ f. f ≢ Memory
        → IsProgramFault word_file (option_map (λ bytes. bytes.now) program.entry) f) }
{
    let Some(bytes) = program else {
        return Ok(Image {
            text: List::new(alloc),
            values: List::new(alloc),
            lines: List::new(alloc),
        });
    };
    if word_file {
        read_words(alloc, bytes)
    } else {
        assemble(alloc, bytes)
    }
}
