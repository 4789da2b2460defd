/// What is known of a bit: 0, 1, or that it may vary.
#[derive(Clone, Copy, Debug, PartialEq, Eq)]
pub enum Part {
    Zero,
    One,
    Vary,
}

/// A gate cell of one output bit, after the single-bit gate cells of the Yosys manual (`$_BUF_`, `$_NOT_`, `$_AND_`,
/// `$_NAND_`, `$_OR_`, `$_NOR_`, `$_XOR_`, `$_XNOR_`, `$_ANDNOT_`, `$_ORNOT_`, `$_MUX_`, `$_NMUX_`, `$_AOI3_`,
/// `$_OAI3_`, `$_AOI4_`, `$_OAI4_`).
#[derive(Clone, Copy, Debug, PartialEq, Eq)]
pub enum Kind {
    Buf,
    Not,
    And,
    Nand,
    Or,
    Nor,
    Xor,
    Xnor,
    AndNot,
    OrNot,
    Mux,
    Nmux,
    Aoi3,
    Oai3,
    Aoi4,
    Oai4,
}
