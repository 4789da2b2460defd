//! A law of the words that `li` and `la` stand for, as the contract of a function that does nothing.
ghost use Rattle.rv_asm.specs.Laws.{NumbersArePut};

/// The words of `li`, and those of `la`, run one after the other, put their number into each register but x0.
pub fn numbers_are_put_law()
    ensures { NumbersArePut }
{}
