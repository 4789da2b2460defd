ghost use Rattle.std.specs.Prelude.{◌≡◌, ◌≤◌, length, IfOk, OnOk, OnErr};
ghost use Rattle.coco_base.specs.Causes.{HasCause, next_count};
ghost use Rattle.coco_base.specs.Outside.{ReadsAt, untold};

use crate::fault::Failed;
use crate::shelf::Shelf;
use std::io::{Read, Seek, SeekFrom};
use std::marker::Model;
use std::rt::Files;
use std::{fs, io};

/// The files of the machine, by their paths. It tells no content. Contracts see it as its count of faults.
#[derive(Drop)]
pub struct FolderShelf<'a, R: Files> {
    rt: &'a R,
    faults: u64,
}

impl<'a, R: Files> Model for FolderShelf<'a, R> {
    ghost use Rattle.std.specs.Prelude.{ℕ};

    ghost Value = { ℕ };

    ghost view = { λ s. s.faults };
}

impl<'a, R: Files> FolderShelf<'a, R> {
    /// The files that a runtime reaches, with no fault counted.
    pub fn new(rt: &'a R) -> Self
        ensures { result ≡ 0 }
    {
        FolderShelf { rt, faults: 0 }
    }
}

impl<'a, R: Files> Shelf for FolderShelf<'a, R> {
    ghost holds = { λ _. untold };

    ghost faults = { λ s. s };

    fn read(&mut self, name: &str, at: u64, into: &mut [u8]) -> Result<usize, Failed>
        ensures count { IfOk result (λ n. n ≤ length into.old) }
        ensures bytes { IfOk result (λ n. ReadsAt (untold name.now) at n into.new) }
        ensures cause { HasCause self.old self.new result }
        ensures held { untold ≡ untold }

        // the count rises at each failure, and then alone
        ensures ok { OnOk result (self.new ≡ self.old) }
        ensures err { OnErr result (self.new ≡ next_count self.old) }
    {
        match file_piece(self.rt, name, at, into) {
            Ok(count) => Ok(count),
            Err(_) => {
                self.faults = self.faults.saturating_add(1);
                Err(Failed)
            }
        }
    }
}

// opens a file of the machine and reads from a place on
fn file_piece<R: Files>(rt: &R, name: &str, at: u64, into: &mut [u8]) -> io::Result<usize>
    ensures { IfOk result (λ n. n ≤ length into.old) }
{
    let mut file = fs::open(rt, name)?;
    file.seek(SeekFrom::Start(at))?;
    file.read(into)
}
