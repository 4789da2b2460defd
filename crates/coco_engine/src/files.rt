ghost use Rattle.std.specs.Prelude.{◌≡◌, ◌≤◌, vec_len, IfOk, IfErr, Some, option_map};
ghost use Rattle.command_words.specs.Shown.{shown_files, shown_name};
ghost use Rattle.coco_base.specs.Outside.{IsContent};
ghost use Rattle.coco_engine.specs.Files.{file_limit};
ghost use Rattle.coco_engine.specs.Reading.{HasRead, IsShortContent, StopsFile, StopsFiles, is_word_file};

use crate::reading::{ReadStop, read_whole};
use coco_base::Shelf;
use command_words::Files;
use std::alloc::Global;

/// The bytes of the files of a call.
#[derive(Debug, Drop)]
pub(crate) struct FileBytes {
    pub netlist: Vec<u8>,
    pub labels: Vec<u8>,
    pub program: Option<Vec<u8>>,
}

/// A file that was not read, and why.
#[derive(Clone, Copy, Debug)]
pub(crate) struct FileStop<'a> {
    pub name: &'a str,
    pub stop: ReadStop,
}

fn read_file<'a, F: Shelf>(
    alloc: Global,
    shelf: &mut F,
    name: &'a str,
) -> Result<Vec<u8>, FileStop<'a>>
    ensures content { IfOk result (λ v. IsContent (F.holds shelf.old name.now) v.items) }
    ensures short { IfOk result (λ v. vec_len v ≤ file_limit) }
    ensures named { IfErr result (λ s. s.name.now ≡ name.now) }
    ensures stop { IfErr result (λ s. StopsFile (F.holds shelf.old) (F.faults shelf.old) (F.faults shelf.new)
        name.now s.stop) }
    ensures later { F.faults shelf.old ≤ F.faults shelf.new }
    ensures held { F.holds shelf.new ≡ F.holds shelf.old }
{
    match read_whole(alloc, shelf, name) {
        Ok(bytes) => Ok(bytes),
        Err(stop) => Err(FileStop { name, stop }),
    }
}

fn read_program<'a, F: Shelf>(
    alloc: Global,
    shelf: &mut F,
    name: Option<&'a str>,
) -> Result<Option<Vec<u8>>, FileStop<'a>>
    ensures content { IfOk result (λ o. IsShortContent (F.holds shelf.old) (shown_name name.entry)
        (option_map (λ v. v.items) o)) }
    ensures named { IfErr result (λ s. shown_name name.entry ≡ Some s.name.now) }
    ensures stop { IfErr result (λ s. StopsFile (F.holds shelf.old) (F.faults shelf.old) (F.faults shelf.new)
        s.name.now s.stop) }
    ensures later { F.faults shelf.old ≤ F.faults shelf.new }
    ensures held { F.holds shelf.new ≡ F.holds shelf.old }
{
    match name {
        Some(name) => Ok(Some(read_file(alloc, shelf, name)?)),
        None => Ok(None),
    }
}

/// The bytes of the netlist, then of the label file, then of the program where one is named; or the first of them that
/// is not read.
pub(crate) fn read_files<'a, F: Shelf>(
    alloc: Global,
    shelf: &mut F,
    files: &Files<'a>,
) -> Result<FileBytes, FileStop<'a>>
    ensures read { IfOk result (HasRead (F.holds shelf.old) (shown_files files.now)) }
    ensures stop { IfErr result (λ s. StopsFiles (F.holds shelf.old) (F.faults shelf.old) (F.faults shelf.new)
        (shown_files files.now) s.name.now s.stop) }
    ensures later { F.faults shelf.old ≤ F.faults shelf.new }
    ensures held { F.holds shelf.new ≡ F.holds shelf.old }
{
    let netlist = match read_file(alloc, shelf, files.netlist) {
        Ok(bytes) => bytes,
        Err(stop) => return Err(stop),
    };
    let labels = match read_file(alloc, shelf, files.labels) {
        Ok(bytes) => bytes,
        Err(stop) => return Err(stop),
    };
    match read_program(alloc, shelf, files.program) {
        Ok(program) => Ok(FileBytes {
            netlist,
            labels,
            program,
        }),
        Err(stop) => Err(stop),
    }
}

/// Whether a program's file is one of words: its name ends in `.hex`.
pub(crate) fn is_word_file(program: Option<&str>) -> bool
    ensures { result ≡ is_word_file (shown_name program.entry) }
{
    match program {
        Some(name) => name.as_bytes().ends_with(b".hex"),
        None => false,
    }
}
