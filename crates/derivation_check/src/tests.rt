use crate::print::{print_derivation, print_formula};
use crate::read::{ProofFault, read_derivation};
use crate::trim::trimmed;
use crate::verdict::{Verdict, check};
use clause_store::{Cut, Derivation, Line, Lit, Store, is_ascending};
use coco_base::{List, NoMemory};
use std::alloc::Global;
use std::process::Abort;
use std::test::Fail;

const fn lit(var: u32, positive: bool) -> Lit {
    Lit { var, positive }
}

fn add(rt: &impl Abort, store: &mut Store, lits: &[Lit]) -> Result<(), NoMemory> {
    let clause = is_ascending(lits);
    assert!(rt; clause);
    let count = store.count();
    assert!(rt; count < 2_147_483_648);
    store.push(lits)?;
    Ok(())
}

fn verdict_of(rt: &impl Abort, alloc: Global, store: &Store, text: &[u8]) -> Result<Verdict, Fail> {
    let derivation = read_derivation(alloc, text)?;
    assert!(rt; derivation.lines.len() < 4_294_967_296);
    Ok(check(alloc, store, &derivation)?)
}

#[test]
fn checks_the_unit_clauses(rt: HostRuntime) -> Result<(), Fail> {
    let alloc = rt.alloc();
    let mut store = Store::new(alloc);
    add(&rt, &mut store, &[lit(0, true)])?;
    add(&rt, &mut store, &[lit(0, false)])?;
    for (text, want) in [
        (b"proof 1\n0 1 1 2 0\n".as_slice(), Verdict::Empty),
        (b"proof 1\n0 1 0\n".as_slice(), Verdict::Wrong { line: 1 }),
        (b"proof 0\n".as_slice(), Verdict::NoEmpty),
        (b"proof 1\n1 0 1 0\n".as_slice(), Verdict::NoEmpty),
        (b"proof 2\n1 0 1 0\n0 3 1 2 0\n".as_slice(), Verdict::Empty),
        // clause 3 is not earlier
        (
            b"proof 1\n0 1 1 3 0\n".as_slice(),
            Verdict::Wrong { line: 1 },
        ),
        // variable 2 is not there
        (
            b"proof 1\n0 1 2 2 0\n".as_slice(),
            Verdict::Wrong { line: 1 },
        ),
        // a line uses a later one
        (
            b"proof 2\n1 0 4 0\n1 0 1 0\n".as_slice(),
            Verdict::Wrong { line: 1 },
        ),
        // a literal is dropped or made up
        (
            b"proof 2\n1 0 1 0\n0 3 0\n".as_slice(),
            Verdict::Wrong { line: 2 },
        ),
        (
            b"proof 1\n1 2 0 1 0\n".as_slice(),
            Verdict::Wrong { line: 1 },
        ),
    ] {
        assert_eq!(rt; verdict_of(&rt, alloc, &store, text)?, want);
    }
    Ok(())
}

/// The four clauses over two variables, refuted as the document on the texts shows.
#[test]
fn checks_the_documented_texts(rt: HostRuntime) -> Result<(), Fail> {
    let alloc = rt.alloc();
    let mut store = Store::new(alloc);
    for (one, other) in [(true, true), (false, true), (true, false), (false, false)] {
        add(&rt, &mut store, &[lit(0, one), lit(1, other)])?;
    }
    let formula = print_formula(alloc, &store, 2)?;
    assert_eq!(rt;
        formula.as_slice(),
        b"p cnf 2 4\n1 2 0\n-1 2 0\n1 -2 0\n-1 -2 0\n".as_slice()
    );
    for (text, want) in [
        (
            b"proof 3\n2 0 1 1 2 0\n-2 0 3 1 4 0\n0 5 2 6 0\n".as_slice(),
            Verdict::Empty,
        ),
        (
            b"proof 2\n2 0 1 1 2 0\n0 3 2 5 1 4 2 5 0\n".as_slice(),
            Verdict::Empty,
        ),
        (
            b"proof 1\n0 1 1 4 0\n".as_slice(),
            Verdict::Wrong { line: 1 },
        ),
    ] {
        assert_eq!(rt; verdict_of(&rt, alloc, &store, text)?, want);
    }
    Ok(())
}

#[test]
fn finds_the_bad_line(rt: HostRuntime) {
    for (text, line) in [
        (b"".as_slice(), 1),
        (b"proof 1".as_slice(), 1),
        (b"proof 01\n0 1 0\n".as_slice(), 1),
        (b"proof 2147483648\n".as_slice(), 1),
        (b"proof  1\n0 1 0\n".as_slice(), 1),
        (b"proof 1\n".as_slice(), 2),
        (b"proof 2000000000\n".as_slice(), 2),
        (b"proof 1\n0 1 0".as_slice(), 2),
        (b"proof 1\n0 0 0\n".as_slice(), 2),
        (b"proof 1\n2 1 0 1 0\n".as_slice(), 2),
        (b"proof 1\n-0 0 1 0\n".as_slice(), 2),
        (b"proof 1\n1 0 2147483648 0\n".as_slice(), 2),
        (b"proof 1\n0 1 1 0\n".as_slice(), 2),
        (b"proof 0\n0 1 0\n".as_slice(), 2),
        (b"proof 1\n0 1 0\nx".as_slice(), 3),
    ] {
        match read_derivation(rt.alloc(), text) {
            Ok(_) => assert!(rt; false),
            Err(fault) => assert_eq!(rt; fault, ProofFault::BadLine { line }),
        }
    }
}

#[test]
fn prints_and_reads_again(rt: HostRuntime) -> Result<(), Fail> {
    let alloc = rt.alloc();
    let mut store = Store::new(alloc);
    add(&rt, &mut store, &[lit(0, true), lit(2, false)])?;
    add(&rt, &mut store, &[])?;
    let formula = print_formula(alloc, &store, 3)?;
    assert_eq!(rt; formula.as_slice(), b"p cnf 3 2\n1 -3 0\n0\n".as_slice());
    for text in [
        b"proof 0\n".as_slice(),
        b"proof 2\n-1 2147483647 0 1 3 4 5 6 0\n0 2147483647 0\n".as_slice(),
    ] {
        let derivation = read_derivation(alloc, text)?;
        assert_eq!(rt; print_derivation(alloc, &derivation)?.as_slice(), text);
    }
    Ok(())
}

#[test]
fn a_variable_with_both_signs_is_refused(rt: HostRuntime) -> Result<(), Fail> {
    let alloc = rt.alloc();
    let mut store = Store::new(alloc);
    add(&rt, &mut store, &[lit(0, true), lit(1, true)])?;
    add(&rt, &mut store, &[lit(0, false), lit(1, false)])?;
    let text = b"proof 1\n0 1 1 2 0\n";
    assert_eq!(rt;
        verdict_of(&rt, alloc, &store, text)?,
        Verdict::Wrong { line: 1 }
    );
    Ok(())
}

fn trimmed_text(
    rt: &impl Abort,
    alloc: Global,
    store: &Store,
    text: &[u8],
) -> Result<Vec<u8>, Fail> {
    let derivation = read_derivation(alloc, text)?;
    assert!(rt; derivation.lines.len() < 4_294_967_296);
    match check(alloc, store, &derivation)? {
        Verdict::Empty => Ok(print_derivation(alloc, &trimmed(alloc, store, &derivation)?)?),
        _ => {
            assert!(rt; false);
            Ok(Vec::new(alloc))
        }
    }
}

#[test]
fn drops_lines_that_nothing_rests_on(rt: HostRuntime) -> Result<(), Fail> {
    let alloc = rt.alloc();
    let mut store = Store::new(alloc);
    for (one, other) in [(true, true), (false, true), (true, false), (false, false)] {
        add(&rt, &mut store, &[lit(0, one), lit(1, other)])?;
    }
    let short = b"proof 3\n2 0 1 1 2 0\n-2 0 3 1 4 0\n0 5 2 6 0\n".as_slice();
    for text in [
        short,
        // clause 6 in the middle is not needed, and then clause 7 that names it
        b"proof 4\n2 0 1 1 2 0\n1 0 1 2 3 0\n-2 0 3 1 4 0\n0 5 2 7 0\n".as_slice(),
        b"proof 5\n2 0 1 1 2 0\n1 0 1 2 3 0\n1 0 6 0\n-2 0 3 1 4 0\n0 5 2 8 0\n".as_slice(),
    ] {
        assert_eq!(rt; trimmed_text(&rt, alloc, &store, text)?.as_slice(), short);
    }
    Ok(())
}

#[test]
fn keeps_the_last_line(rt: HostRuntime) -> Result<(), Fail> {
    let alloc = rt.alloc();
    let mut store = Store::new(alloc);
    add(&rt, &mut store, &[lit(0, true)])?;
    add(&rt, &mut store, &[lit(0, false)])?;
    let last = b"proof 1\n0 1 1 2 0\n".as_slice();
    for text in [
        last,
        b"proof 2\n1 0 1 0\n0 1 1 2 0\n".as_slice(),
        b"proof 2\n0 1 1 2 0\n0 1 1 2 0\n".as_slice(),
    ] {
        assert_eq!(rt; trimmed_text(&rt, alloc, &store, text)?.as_slice(), last);
    }
    add(&rt, &mut store, &[])?;
    let none = b"proof 0\n".as_slice();
    assert_eq!(rt; trimmed_text(&rt, alloc, &store, none)?.as_slice(), none);
    Ok(())
}

/// One line of 100,000 literals by as many cuts.
#[test]
fn checks_a_wide_line(rt: HostRuntime) -> Result<(), Fail> {
    const WIDTH: u32 = 100_000;
    let alloc = rt.alloc();
    let mut store = Store::new(alloc);
    let mut wide = Vec::new(alloc);
    let mut clause = Vec::new(alloc);
    let mut cuts = Vec::new(alloc);
    for var in 0..WIDTH {
        wide.push(lit(var, true))?;
        clause.push(lit(WIDTH + var, true))?;
        cuts.push(Cut { var, id: var + 1 })?;
    }
    add(&rt, &mut store, &wide)?;
    for var in 0..WIDTH {
        add(&rt, &mut store, &[lit(var, false), lit(WIDTH + var, true)])?;
    }
    let mut lines = List::new(alloc);
    lines.push(Line {
        clause: List::from_vec(clause),
        first: 0,
        cuts: List::from_vec(cuts),
    })?;
    let derivation = Derivation { lines };
    assert!(rt; derivation.lines.len() < 4_294_967_296);
    assert_eq!(rt; check(alloc, &store, &derivation)?, Verdict::NoEmpty);
    Ok(())
}
