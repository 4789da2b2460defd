use crate::line::{Cut, Line};
use crate::lit::{Lit, is_ascending};
use crate::named::clause_at;
use crate::store::Store;
use coco_base::{List, NoMemory};
use std::alloc::Global;
use std::process::Abort;

const X: Lit = Lit {
    var: 0,
    positive: true,
};

const NOT_X: Lit = Lit {
    var: 0,
    positive: false,
};

const NOT_Y: Lit = Lit {
    var: 1,
    positive: false,
};

const Y: Lit = Lit {
    var: 1,
    positive: true,
};

#[test]
fn keeps_what_was_pushed(rt: HostRuntime) -> Result<(), NoMemory> {
    let mut store = Store::new(rt.alloc());
    assert_eq!(rt; store.count(), 0);
    for lits in [[X].as_slice(), [NOT_X, Y].as_slice()] {
        let clause = is_ascending(lits);
        assert!(rt; clause);
        let count = store.count();
        assert!(rt; count < 2_147_483_648);
        let id = store.push(lits)?;
        assert_eq!(rt; id, count);
    }
    let count = store.count();
    assert_eq!(rt; count, 2);
    assert_eq!(rt; store.get(0), [X].as_slice());
    assert_eq!(rt; store.get(1), [NOT_X, Y].as_slice());
    Ok(())
}

/// The clauses {1}, {1, -2} and {}.
fn three_clauses(rt: &impl Abort, alloc: Global) -> Result<Store, NoMemory> {
    let mut store = Store::new(alloc);
    for lits in [[X].as_slice(), [X, NOT_Y].as_slice(), [].as_slice()] {
        let clause = is_ascending(lits);
        assert!(rt; clause);
        let count = store.count();
        assert!(rt; count < 2_147_483_648);
        store.push(lits)?;
    }
    Ok(store)
}

#[test]
fn clauses_stand_one_after_the_other(rt: HostRuntime) -> Result<(), NoMemory> {
    let store = three_clauses(&rt, rt.alloc())?;
    assert_eq!(rt; store.arena(), [X, X, NOT_Y].as_slice());
    let count = store.count();
    assert_eq!(rt; count, 3);
    for (id, start) in [(0, 0), (1, 1), (2, 3)] {
        assert!(rt; id < count);
        assert_eq!(rt; store.start(id), start);
    }
    assert_eq!(rt; store.get(2).len(), 0);
    Ok(())
}

#[test]
fn numbers_lines_on_from_the_store(rt: HostRuntime) -> Result<(), NoMemory> {
    let alloc = rt.alloc();
    let mut store = Store::new(alloc);
    let clause = is_ascending(&[X]);
    assert!(rt; clause);
    store.push(&[X])?;
    let line = Line {
        clause: List::from_vec(Vec::from_slice(alloc, &[Y])?),
        first: 0,
        cuts: List::from_vec(Vec::from_slice(alloc, &[Cut { var: 0, id: 0 }])?),
    };
    let mut lines = List::new(alloc);
    lines.push(line)?;
    assert_eq!(rt;
        clause_at(&store, lines.as_slice(), 0),
        Some([X].as_slice())
    );
    assert_eq!(rt;
        clause_at(&store, lines.as_slice(), 1),
        Some([Y].as_slice())
    );
    assert_eq!(rt; clause_at(&store, lines.as_slice(), 2), None);
    Ok(())
}

#[test]
fn tells_clauses(rt: HostRuntime) {
    for (lits, want) in [
        ([].as_slice(), true),
        ([X, Y].as_slice(), true),
        ([X, NOT_X].as_slice(), false),
        ([Y, X].as_slice(), false),
    ] {
        assert_eq!(rt; is_ascending(lits), want);
    }
}
