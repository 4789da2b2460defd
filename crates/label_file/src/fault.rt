/// Why a label file is refused. Lines count from 1; the least line at fault is named, and of its faults the one that
/// stands first here.
#[derive(Clone, Copy, Debug, PartialEq, Eq)]
pub enum LabelFault {
    /// The line is outside the language.
    BadLine { line: u32 },
    /// The line declares a name that a line before declares, or it may stand once and stands again.
    Twice { line: u32 },
    /// The line has a name of labels that no line before declares for such a value.
    UnknownSecret { line: u32 },
    /// The line has a width, a number of shares, a share or a bit outside its range.
    ShareRange { line: u32 },
    /// A line brings the number of declared labels to `count`, which is above the limit.
    TooMany { count: u64, limit: u64 },
    /// Memory was refused.
    Memory,
}
