ghost use Rattle.std.specs.Prelude.{◌<◌, length};

use crate::head::rest_after;
use std::test::Fail;

// a head, a file, and the first line that the file has otherwise; where that is 0, the file has the head
const CASES: &[(&str, &str, u32)] = &[
    ("", "", 0),
    ("", "rest\n", 0),
    ("a\nbc\nd\n", "a\nbc\nd\n", 0),
    ("a\nbc\nd\n", "a\nbc\nd\nrest", 0),
    // nothing is there
    ("a\nbc\nd\n", "", 1),
    // a line is another
    ("a\nbc\nd\n", "x\nbc\nd\n", 1),
    ("a\nbc\nd\n", "a\nbx\nd\n", 2),
    ("a\nbc\nd\n", "a\nxc\nd\n", 2),
    ("a\nbc\nd\n", "a\nbc\nx\n", 3),
    ("a\nbc\nd\n", "x\nx\nx\n", 1),
    // a line is missing
    ("a\nbc\nd\n", "bc\nd\n", 1),
    ("a\nbc\nd\n", "a\nd\n", 2),
    ("a\nbc\nd\n", "a\nbc\n", 3),
    // a line has no line feed
    ("a\nbc\nd\n", "a", 1),
    ("a\nbc\nd\n", "abc\nd\n", 1),
    ("a\nbc\nd\n", "a\nbcd\n", 2),
    ("a\nbc\nd\n", "a\nbc", 2),
    ("a\nbc\nd\n", "a\nbc\nd", 3),
    // a line is longer, shorter, or too many
    ("a\nbc\nd\n", "a\nbcx\nd\n", 2),
    ("a\nbc\nd\n", "a\nb\nd\n", 2),
    ("a\nbc\nd\n", "a\n\nbc\nd\n", 2),
    ("a\nbc\nd\n", "a\r\nbc\nd\n", 1),
    // an empty line
    ("\n\n", "\n", 2),
    ("\n\n", "\n\n\n", 0),
    // a head without its last line feed
    ("a\nbc", "a\nb", 2),
    ("a\nbc", "a\nbc\n", 0),
];

fn first_other(file: &[u8], head: &[u8]) -> u32
    requires { length file.now < 4294967295 }
{
    match rest_after(file, head) {
        Ok(_) => 0,
        Err(number) => number,
    }
}

#[test]
fn the_first_line_that_is_otherwise_is_named(rt: HostRuntime) -> Result<(), Fail> {
    for (head, file, number) in CASES {
        assert!(rt; file.len() < 100);
        assert_eq!(rt; first_other(file.as_bytes(), head.as_bytes()), *number);
    }
    Ok(())
}

#[test]
fn what_follows_the_head_is_the_rest(rt: HostRuntime) -> Result<(), Fail> {
    let rest = rest_after(b"a\nbc\nproof 0\n", b"a\nbc\n").ok();
    assert_eq!(rt; rest, Some(b"proof 0\n".as_slice()));
    Ok(())
}
