ghost use Rattle.tally_clauses.specs.Laws.{MergeLaw, MergeLimitLaw, TallyLaw, LimitLaw, SizeLaw};

use circuit_clauses::gates_law;

/// The sum of two tallies counts what both count.
pub fn merge_law()
    ensures { MergeLaw }
{
    gates_law(); // the signal of a gate has the gate's value
}

/// The steps of a sum of two tallies hold exactly where its gates do and the limit is not passed.
pub fn merge_limit_law()
    ensures { MergeLimitLaw }
{}

/// The sum of a list of tallies counts what all count.
pub fn tally_law()
    ensures { TallyLaw }
{
    gates_law(); // the signal of a gate has the gate's value
}

/// The steps of a sum of tallies hold exactly where its gates do and the limit is not passed.
pub fn limit_law()
    ensures { LimitLaw }
{
    gates_law(); // the signal of a gate has the gate's value
}

/// A sum of tallies takes at most as many variables as its parts are worth more than it, and 4 times so many clauses.
pub fn size_law()
    ensures { SizeLaw }
{}
