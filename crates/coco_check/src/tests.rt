use crate::{call_words, refusal_status};
use coco_base::Status;
use std::alloc::{AllocError, Global};
use std::env::{Env, FillError};
use std::io;
use std::test::Fail;

// the words of a process, as bytes
#[derive(Clone, Copy)]
struct Words {
    words: &'static [&'static [u8]],
}

impl Env for Words {
    fn arg(&self, i: usize, buf: &mut [u8]) -> Result<usize, FillError> {
        let Some(word) = self.words.get(i) else {
            return Err(FillError::NotPresent);
        };
        if buf.len() < word.len() {
            return Err(FillError::TooLong);
        }
        buf[..word.len()].copy_from_slice(word);
        Ok(word.len())
    }

    fn var(&self, _name: &str, _buf: &mut [u8]) -> Result<usize, FillError> {
        Err(FillError::NotPresent)
    }

    fn var_at(&self, _i: usize, _buf: &mut [u8]) -> Result<usize, FillError> {
        Err(FillError::NotPresent)
    }
}

// a runtime whose process was called with these words
fn called(alloc: Global, words: &'static [&'static [u8]]) -> (Words, Global) {
    (Words { words }, alloc)
}

#[test]
fn the_words_are_those_after_the_name_of_the_program(rt: HostRuntime) -> Result<(), Fail> {
    let gathered = call_words(&called(rt.alloc(), &[b"coco_check", b"--netlist", b"", b"n.json"]))?;
    assert_eq!(rt; gathered.len(), 3);
    for (word, want) in gathered.iter().zip(["--netlist", "", "n.json"]) {
        assert_eq!(rt; word.as_str(), want);
    }
    Ok(())
}

#[test]
fn a_word_that_is_no_text_is_a_faulty_call(rt: HostRuntime) {
    match call_words(&called(rt.alloc(), &[b"coco_check", b"\xff", b"--labels", b"l.txt"])) {
        Ok(_) => panic!(rt; "the word is no text"),
        Err(error) => assert_eq!(rt; refusal_status(error.kind()), Status::Usage),
    }
}

#[test]
fn words_for_which_memory_was_refused_are_no_faulty_call(rt: HostRuntime) {
    let error = io::Error::from(AllocError);
    assert_eq!(rt; refusal_status(error.kind()), Status::NoMemory);
}

#[test]
fn each_status_has_its_number(rt: HostRuntime) {
    let statuses = [
        Status::Accepted,
        Status::Rejected,
        Status::Undecided,
        Status::Refused,
        Status::ReadFault,
        Status::WriteFault,
        Status::NoMemory,
        Status::Usage,
    ];
    for (number, status) in statuses.iter().enumerate() {
        assert_eq!(rt; *status as usize, number);
    }
}
