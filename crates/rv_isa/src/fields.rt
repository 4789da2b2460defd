//! Fields of bits, and the words of the six formats ("Base Instruction Formats" and "Immediate Encoding Variants").
ghost use Rattle.std.specs.Prelude.{◌≡◌, ◌+◌, ◌-◌, ◌*◌, ◌<◌, ◌≤◌, ◌^◌};
ghost use Rattle.rv_isa.specs.Fields.{b_word, bits, i_word, imm_bits, j_word, r_word, s_word, sign_extension, u_word};

// Bits `high` to `low` of a word, as a number.
pub(crate) fn bits(word: u32, high: u32, low: u32) -> u32
    requires order { low ≤ high }
    requires part { high < low + 31 }
    requires within { high < 32 }
    ensures { result ≡ bits word high low }
{
    (word >> low) % (1 << (high + 1 - low))
}

// Bits `high` to `low` of an immediate, in two's complement of 32 bits.
pub(crate) fn imm_bits(imm: i32, high: u32, low: u32) -> u32
    requires order { low ≤ high }
    requires part { high < low + 31 }
    requires within { high < 32 }
    ensures { result ≡ imm_bits imm high low }
{
    bits(imm.cast_unsigned(), high, low)
}

// The number that a field holds in two's complement, where `sign` is the worth of its highest bit.
pub(crate) fn sign_extension(field: u32, sign: u32) -> i32
    requires sign { sign ≤ 2 ^ 20 }
    requires field { field < 2 * sign }
    ensures { result ≡ sign_extension field sign }
{
    if field < sign {
        field as i32
    } else {
        field as i32 - 2 * sign as i32
    }
}

// The word of format R.
pub(crate) fn r_word(opcode: u32, rd: u8, funct3: u32, rs1: u8, rs2: u8, funct7: u32) -> u32
    requires opcode { opcode < 2 ^ 7 }
    requires rd { rd < 32 }
    requires funct3 { funct3 < 2 ^ 3 }
    requires rs1 { rs1 < 32 }
    requires rs2 { rs2 < 32 }
    requires funct7 { funct7 < 2 ^ 7 }
    ensures { result ≡ r_word opcode rd funct3 rs1 rs2 funct7 }
{
    (funct7 << 25)
        + (u32::from(rs2) << 20)
        + (u32::from(rs1) << 15)
        + (funct3 << 12)
        + (u32::from(rd) << 7)
        + opcode
}

// The word of format I, whose bits 31 to 20 are `upper`.
pub(crate) fn i_word(opcode: u32, rd: u8, funct3: u32, rs1: u8, upper: u32) -> u32
    requires opcode { opcode < 2 ^ 7 }
    requires rd { rd < 32 }
    requires funct3 { funct3 < 2 ^ 3 }
    requires rs1 { rs1 < 32 }
    requires upper { upper < 2 ^ 12 }
    ensures { result ≡ i_word opcode rd funct3 rs1 upper }
{
    (upper << 20) + (u32::from(rs1) << 15) + (funct3 << 12) + (u32::from(rd) << 7) + opcode
}

// The word of format S.
pub(crate) fn s_word(opcode: u32, funct3: u32, rs1: u8, rs2: u8, imm: i32) -> u32
    requires opcode { opcode < 2 ^ 7 }
    requires funct3 { funct3 < 2 ^ 3 }
    requires rs1 { rs1 < 32 }
    requires rs2 { rs2 < 32 }
    ensures { result ≡ s_word opcode funct3 rs1 rs2 imm }
{
    (imm_bits(imm, 11, 5) << 25)
        + (u32::from(rs2) << 20)
        + (u32::from(rs1) << 15)
        + (funct3 << 12)
        + (imm_bits(imm, 4, 0) << 7)
        + opcode
}

// The word of format B.
pub(crate) fn b_word(opcode: u32, funct3: u32, rs1: u8, rs2: u8, imm: i32) -> u32
    requires opcode { opcode < 2 ^ 7 }
    requires funct3 { funct3 < 2 ^ 3 }
    requires rs1 { rs1 < 32 }
    requires rs2 { rs2 < 32 }
    ensures { result ≡ b_word opcode funct3 rs1 rs2 imm }
{
    (imm_bits(imm, 12, 12) << 31)
        + (imm_bits(imm, 10, 5) << 25)
        + (u32::from(rs2) << 20)
        + (u32::from(rs1) << 15)
        + (funct3 << 12)
        + (imm_bits(imm, 4, 1) << 8)
        + (imm_bits(imm, 11, 11) << 7)
        + opcode
}

// The word of format U, whose bits 31 to 12 are `field`.
pub(crate) fn u_word(opcode: u32, rd: u8, field: u32) -> u32
    requires opcode { opcode < 2 ^ 7 }
    requires rd { rd < 32 }
    requires field { field < 2 ^ 20 }
    ensures { result ≡ u_word opcode rd field }
{
    (field << 12) + (u32::from(rd) << 7) + opcode
}

// The word of format J.
pub(crate) fn j_word(opcode: u32, rd: u8, imm: i32) -> u32
    requires opcode { opcode < 2 ^ 7 }
    requires rd { rd < 32 }
    ensures { result ≡ j_word opcode rd imm }
{
    (imm_bits(imm, 20, 20) << 31)
        + (imm_bits(imm, 10, 1) << 21)
        + (imm_bits(imm, 11, 11) << 20)
        + (imm_bits(imm, 19, 12) << 12)
        + (u32::from(rd) << 7)
        + opcode
}
