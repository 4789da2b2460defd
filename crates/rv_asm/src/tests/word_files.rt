use super::check_word_fault;
use crate::{AsmFault, read_words};
use std::alloc::Global;
use std::process::Abort;

// The words and lines of a file of words without fault.
fn check_words(rt: &impl Abort, alloc: Global, file: &[u8], text: &[u32], lines: &[u32]) {
    match read_words(alloc, file) {
        Ok(image) => {
            assert!(rt; image.text.as_slice() == text);
            assert!(rt; image.lines.as_slice() == lines);
            assert!(rt; image.values.is_empty());
        }
        Err(_) => panic!(rt; "no image"),
    }
}

#[test]
fn each_line_is_a_word_or_nothing(rt: HostRuntime) {
    let alloc = rt.alloc();
    check_words(&rt, alloc, b"00500093", &[0x00500093], &[1]);
    check_words(&rt, alloc, b"", &[], &[]);
    check_words(
        &rt,
        alloc,
        b"# two words\r\nfe000EE3\r\n \t\n\n00008067\n",
        &[0xfe000ee3, 0x00008067],
        &[2, 5],
    );
}

#[test]
fn another_line_is_bad(rt: HostRuntime) {
    let rows = [
        ("00500093\n005000931\n", AsmFault::BadLine { line: 2 }),
        ("0050009\n", AsmFault::BadLine { line: 1 }),
        ("\n\n 00500093\n", AsmFault::BadLine { line: 3 }),
        ("0050009g", AsmFault::BadLine { line: 1 }),
        ("00500093\r", AsmFault::BadLine { line: 1 }),
    ];
    for row in &rows {
        check_word_fault(&rt, rt.alloc(), row.0.as_bytes(), row.1);
    }
}

#[test]
fn the_line_of_word_4097_is_a_range(rt: HostRuntime) -> Result<(), std::test::Fail> {
    let alloc = rt.alloc();
    let mut file = Vec::new(alloc);
    for _ in 0..4096 {
        file.extend_from_slice(b"00000013\n")?;
    }
    assert!(rt; read_words(alloc, &file).is_ok());
    file.extend_from_slice(b"\n# nothing\n00000013\nx\n")?;
    check_word_fault(&rt, alloc, &file, AsmFault::Range { line: 4099 });
    Ok(())
}
