ghost use Rattle.std.specs.Prelude.{◌≤◌};

use crate::{
    FolderShelf, LabelSet, List, MemFile, MemShelf, MemSink, NoMemory, NumberFault, OutSink, Shelf,
    Sink, Text, literal_of, next_line, number_of, words,
};
use std::alloc::Global;
use std::fs;
use std::test::Fail;

fn file(alloc: Global, name: &str, bytes: &[u8]) -> Result<MemFile, NoMemory> {
    Ok(MemFile {
        name: Text::of(alloc, name)?,
        bytes: List::from_vec(bytes.to_vec(alloc)?),
    })
}

fn shelf(alloc: Global, piece: usize, fails: &[u32]) -> Result<MemShelf, NoMemory>
    requires { 1 ≤ piece }
{
    let mut files = List::new(alloc);
    files.push(file(alloc, "a", b"0123456789")?)?;
    files.push(file(alloc, "a", b"later")?)?;
    files.push(file(alloc, "b", b"")?)?;
    MemShelf::new(alloc, files, piece, List::from_vec(fails.to_vec(alloc)?))
}

#[test]
fn a_shelf_gives_pieces_and_fails_where_it_is_told_to(rt: HostRuntime) -> Result<(), Fail> {
    let mut shelf = shelf(rt.alloc(), 4, &[2])?;
    let mut buffer = [b'-'; 6];
    assert_eq!(rt; shelf.read("a", 0, &mut buffer), Ok(4));
    assert_eq!(rt; buffer, *b"0123--");
    assert_eq!(rt; shelf.read("a", 8, &mut buffer), Ok(2));
    assert_eq!(rt; buffer, *b"8923--");
    assert!(rt;
        shelf.read("a", 0, &mut buffer).is_err(),
        "call 2 is listed"
    );
    assert_eq!(rt; shelf.read("a", 10, &mut buffer), Ok(0));
    assert_eq!(rt; shelf.read("a", u64::MAX, &mut buffer), Ok(0));
    assert_eq!(rt; shelf.read("b", 0, &mut buffer), Ok(0));
    assert!(rt; shelf.read("c", 0, &mut buffer).is_err(), "no such file");
    assert_eq!(rt; shelf.read("a", 3, &mut buffer[..2]), Ok(2));
    assert_eq!(rt; buffer, *b"3423--");
    Ok(())
}

#[test]
fn a_sink_takes_bytes_until_it_is_full(rt: HostRuntime) -> Result<(), Fail> {
    let mut sink = MemSink::new(rt.alloc(), 5)?;
    assert_eq!(rt; sink.write(b"abc"), Ok(3));
    assert_eq!(rt; sink.write(b"def"), Ok(2));
    assert_eq!(rt; sink.write(b""), Ok(0));
    assert!(rt; sink.write(b"g").is_err(), "no room is left");
    assert_eq!(rt; sink.bytes(), b"abcde".as_slice());
    Ok(())
}

#[test]
fn the_machine_is_reached_by_its_adapters(rt: HostRuntime) -> Result<(), Fail> {
    fs::write(&rt, "file", "0123456789")?;
    let mut shelf = FolderShelf::new(&rt);
    let mut buffer = [0u8; 4];
    assert_eq!(rt; shelf.read("file", 3, &mut buffer), Ok(4));
    assert_eq!(rt; buffer, *b"3456");
    assert_eq!(rt; shelf.read("file", 10, &mut buffer), Ok(0));
    assert!(rt;
        shelf.read("missing", 0, &mut buffer).is_err(),
        "no such file"
    );
    let mut sink = OutSink::new(&rt);
    assert_eq!(rt; sink.write(b""), Ok(0));
    assert_eq!(rt; sink.write(b"out\n"), Ok(4));
    Ok(())
}

#[test]
fn a_set_of_one_label_has_that_label_alone(rt: HostRuntime) -> Result<(), NoMemory> {
    let set = LabelSet::of(rt.alloc(), 7)?;
    assert!(rt; set.has(7) && !set.has(0) && !set.has(8));
    assert!(rt; !LabelSet::empty(rt.alloc()).has(7));
    Ok(())
}

#[test]
fn a_line_ends_with_a_line_feed_and_the_return_before_it(rt: HostRuntime) {
    let (first, rest) = next_line(b"a b\r\r\n\n c\r").expect(&rt, "a line");
    assert_eq!(rt; first, b"a b\r".as_slice());
    let (second, rest) = next_line(rest).expect(&rt, "a second line");
    assert_eq!(rt; second, b"".as_slice());
    let (last, rest) = next_line(rest).expect(&rt, "a third line");
    assert_eq!(rt; last, b" c\r".as_slice());
    assert!(rt; next_line(rest).is_none());
}

#[test]
fn words_stand_between_spaces_and_tabs(rt: HostRuntime) -> Result<(), Fail> {
    let all = words(rt.alloc(), " \treg  q\u{e9}[0]\ta.1\r \t")?;
    assert_eq!(rt; all.as_slice(), ["reg", "q\u{e9}[0]", "a.1\r"].as_slice());
    assert!(rt; words(rt.alloc(), "\t ")?.is_empty());
    Ok(())
}

#[test]
fn a_number_has_digits_of_its_radix_and_is_no_greater_than_allowed(rt: HostRuntime) {
    assert_eq!(rt; number_of(b"0032", 10, 32), Ok(32));
    assert_eq!(rt; number_of(b"33", 10, 32), Err(NumberFault::TooLarge));
    assert_eq!(rt;
        number_of(b"99999999999999999999", 10, u64::MAX),
        Err(NumberFault::TooLarge)
    );
    assert_eq!(rt;
        number_of(b"99999999999999999999x", 10, 1),
        Err(NumberFault::NotDigits)
    );
    assert_eq!(rt; number_of(b"", 10, 1), Err(NumberFault::NotDigits));
    assert_eq!(rt; number_of(b"+1", 10, 1), Err(NumberFault::NotDigits));
    assert_eq!(rt; literal_of(b"0xffFFffff", 4294967295), Ok(4294967295));
    assert_eq!(rt; literal_of(b"0x", 4294967295), Err(NumberFault::NotDigits));
    assert_eq!(rt; literal_of(b"0X1", 4294967295), Err(NumberFault::NotDigits));
    assert_eq!(rt;
        literal_of(b"4294967296", 4294967295),
        Err(NumberFault::TooLarge)
    );
}

#[test]
fn the_exclusive_or_of_two_sets_has_what_one_alone_has(rt: HostRuntime) -> Result<(), NoMemory> {
    let zero = LabelSet::of(rt.alloc(), 0)?;
    let one = LabelSet::of(rt.alloc(), 1)?;
    let both = zero.xor(rt.alloc(), &one)?;
    assert!(rt; both.has(0) && both.has(1) && !both.has(2));
    let again = both.xor(rt.alloc(), &one)?;
    assert!(rt; again.has(0) && !again.has(1));
    let all = both.union(rt.alloc(), &one)?;
    assert!(rt; all.has(0) && all.has(1) && !all.has(2));
    assert_eq!(rt; all.len(), 2);
    assert!(rt; !all.is_empty() && LabelSet::empty(rt.alloc()).is_empty());
    assert!(rt; all.iter().eq([0, 1].iter()));
    Ok(())
}
