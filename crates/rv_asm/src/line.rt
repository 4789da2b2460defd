//! What a line says: from its bytes to its labels and its statement.
pub(crate) mod directives;
pub(crate) mod expression;
pub(crate) mod instructions;
pub(crate) mod jumps;
pub(crate) mod mnemonics;
pub(crate) mod numbers;
pub(crate) mod operands;
pub(crate) mod reading;
pub(crate) mod registers;
pub(crate) mod source_line;
pub(crate) mod statement;
pub(crate) mod tokens;
