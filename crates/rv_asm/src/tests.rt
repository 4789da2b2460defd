//! Programs in assembly and files of words, their images and their faults; parts of lines.
use crate::{AsmFault, Image, assemble, read_words};
use std::alloc::Global;
use std::process::Abort;

mod directives;
mod faults;
mod first_faults;
mod instructions;
mod lines;
mod names;
mod parts_of_lines;
mod pseudo_instructions;
mod word_files;

// The program has no fault, and its image these words.
fn check_image(rt: &impl Abort, program: Result<Image, AsmFault>, text: &[u32], values: &[u32]) {
    match program {
        Ok(image) => {
            assert!(rt; image.text.as_slice() == text);
            assert!(rt; image.values.as_slice() == values);
        }
        Err(_) => panic!(rt; "no image"),
    }
}

// The program has this text, and no data.
fn check_text(rt: &impl Abort, alloc: Global, program: &[u8], text: &[u32]) {
    check_image(rt, assemble(alloc, program), text, &[]);
}

// The program has this data, and no text.
fn check_data(rt: &impl Abort, alloc: Global, program: &[u8], values: &[u32]) {
    check_image(rt, assemble(alloc, program), &[], values);
}

// Each line is an instruction of one word.
fn check_lines(rt: &impl Abort, alloc: Global, rows: &[(&str, u32)]) {
    for row in rows {
        check_text(rt, alloc, row.0.as_bytes(), &[row.1]);
    }
}

fn check_fault(rt: &impl Abort, alloc: Global, program: &[u8], fault: AsmFault) {
    match assemble(alloc, program) {
        Ok(_) => panic!(rt; "an image"),
        Err(found) => assert_eq!(rt; found, fault),
    }
}

// Each program has a fault.
fn check_faults(rt: &impl Abort, alloc: Global, rows: &[(&str, AsmFault)]) {
    for row in rows {
        check_fault(rt, alloc, row.0.as_bytes(), row.1);
    }
}

fn check_word_fault(rt: &impl Abort, alloc: Global, file: &[u8], fault: AsmFault) {
    match read_words(alloc, file) {
        Ok(_) => panic!(rt; "an image"),
        Err(found) => assert_eq!(rt; found, fault),
    }
}
