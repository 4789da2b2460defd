ghost use Rattle.std.specs.Prelude.{◌≡◌, ℕ, ◌+◌, ◌-◌, ◌≤◌, ◌++◌, List, Option, length, take, drop, IfOk, IfSome, is_err, option_map, ◌==◌};
ghost use Rattle.std.specs.List.{list_any};
ghost use Rattle.coco_base.specs.Causes.{HasCause};
ghost use Rattle.coco_base.specs.Memory.{after_call, answered, bytes_of, piece_of, refuses};
ghost use Rattle.coco_base.specs.Outside.{ReadsAt};

use crate::fault::{Failed, NoMemory};
use crate::list::List;
use crate::mem_file::MemFile;
use crate::shelf::Shelf;
use std::alloc::Global;
use std::marker::Model;

/// Files in memory, for tests. A call gives at most `piece` bytes; it fails where its number, counted from 0, is
/// listed, and on a name that no file has. Of several files with one name the first counts.
#[derive(Debug, Drop)]
pub struct MemShelf {
    files: List<MemFile>,
    piece: usize,
    fails: List<u32>,
    call: u32,
    faults: u64,
}

impl Model for MemShelf {
    ghost use Rattle.std.specs.Prelude.{◌≤◌};
    ghost use Rattle.coco_base.specs.Memory.{ShelfState};

    ghost Value = { ShelfState };

    ghost view = { λ s. record { files = s.files; piece = s.piece; fails = s.fails; call = s.call; faults = s.faults } };

    ghost invariant = { λ s. 1 ≤ s.piece };
}

impl MemShelf {
    /// A shelf of files that gives at most `piece` bytes a call and fails on the calls with the given numbers.
    pub fn new(
        _alloc: Global,
        files: List<MemFile>,
        piece: usize,
        fails: List<u32>,
    ) -> Result<Self, NoMemory>
        requires { 1 ≤ piece }
        ensures { IfOk result (λ s. s ≡ record { files = files; piece = piece; fails = fails; call = 0; faults = 0 }) }
    {
        Ok(MemShelf {
            files,
            piece,
            fails,
            call: 0,
            faults: 0,
        })
    }
}

impl Shelf for MemShelf {
    ghost holds = { λ s. bytes_of s.files };

    ghost faults = { λ s. s.faults };

    fn read(&mut self, name: &str, at: u64, into: &mut [u8]) -> Result<usize, Failed>
        ensures count { IfOk result (λ n. n ≤ length into.old) }
        ensures bytes { IfOk result (λ n. ReadsAt (bytes_of self.old.files name.now) at n into.new) }
        ensures cause { HasCause self.old.faults self.new.faults result }
        ensures held { bytes_of self.new.files ≡ bytes_of self.old.files }

        // exactly which calls fail, how much a call gives, and what stays in the buffer and on the shelf
        ensures fails { is_err result ≡ refuses self.old name.now }
        ensures gives { IfOk result (λ n. IfSome (bytes_of self.old.files name.now) (λ file.
            (n ≡ piece_of self.old.piece (length into.old) at file)
            × (into.new ≡ take n (drop at file) ++ drop n into.old))) }
        ensures state { self.new ≡ after_call self.old (is_err result) }
    {
        let call = self.call;
        self.call = call.saturating_add(1);
        match answer(self.files.as_slice(), self.fails.as_slice(), call, name) {
            Some(bytes) => Ok(copied(bytes, at, self.piece, into)),
            None => {
                self.faults = self.faults.saturating_add(1);
                Err(Failed)
            }
        }
    }
}

// what a call is answered from: nothing where its number is listed, and else the file of the name
fn answer<'a>(files: &'a [MemFile], fails: &[u32], call: u32, name: &str) -> Option<&'a [u8]>
    ensures { option_map (λ s. s.now) result ≡ answered files.now fails.now call name.now }
{
    if is_listed(fails, call) {
        return None;
    }
    content(files, name)
}

fn is_listed(fails: &[u32], call: u32) -> bool
    ensures { result ≡ list_any (λ c. c == call) fails.now }
{
    fails.iter().any(|number| *number == call)
}

// what the first file of a name holds
fn content<'a>(files: &'a [MemFile], name: &str) -> Option<&'a [u8]>
    ensures { option_map (λ s. s.now) result ≡ bytes_of files.now name.now }
{
    'files: for file in files {
        if file.name.as_str() == name {
            return Some(file.bytes.as_slice());
        }
    }
    None
}

// copies at most a number of bytes of a file, from a place on, to the head of a buffer
fn copied(file: &[u8], at: u64, most: usize, into: &mut [u8]) -> usize
    ensures count { result ≡ piece_of most (length into.old) at file.now }
    ensures bytes { into.new ≡ take result (drop at file.now) ++ drop result into.old }
{
    let start = if at < file.len() as u64 {
        at as usize
    } else {
        file.len()
    };
    let rest = &file[start..];
    let count = most.min(into.len()).min(rest.len());
    into[..count].copy_from_slice(&rest[..count]);
    count
}
