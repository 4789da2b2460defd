use crate::lit::Lit;
use coco_base::List;

/// One step of a chain of resolvents: resolve what there is so far on the variable `var` with the clause number `id`.
#[derive(Clone, Copy, Debug, PartialEq, Eq)]
pub struct Cut {
    pub var: u32,
    pub id: u32,
}

/// A line of a derivation: its clause, and the chain that leads to it from the clause number `first`.
#[derive(Debug, Drop)]
pub struct Line {
    pub clause: List<Lit>,
    pub first: u32,
    pub cuts: List<Cut>,
}

/// A list of lines. Each may use the clauses of the store and of the lines before it.
#[derive(Debug, Drop)]
pub struct Derivation {
    pub lines: List<Line>,
}
