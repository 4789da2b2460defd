//! What mnemonics and directives ask for.
ghost use Rattle.std.specs.Prelude.{◌≡◌};
ghost use Rattle.rv_asm.specs.Mnemonics.{align_directives, branch_mnemonics, copy_mnemonics, file_directives, form_of, imm_mnemonics, jump_mnemonics, memory_mnemonics, name_directives, option_directives, part_directives, reg_mnemonics, shape_directives, symbol_directives, system_mnemonics, value_directives, value_mnemonics, zero_directives, zero_mnemonics};
ghost use Rattle.rv_asm.specs.Tables.{look_up};

use rv_isa::{BranchOp, ImmOp, LoadOp, RegOp, StoreOp};

// What a word asks for that begins a statement.
#[derive(Clone, Copy, Debug, PartialEq, Eq)]
pub(crate) enum Form {
    Reg(RegOp),
    Imm(ImmOp),
    Load(LoadOp),
    Store(StoreOp),
    Branch(BranchOp),
    // A branch whose registers are exchanged.
    Exchanged(BranchOp),
    // A branch with x0 as its second register.
    Second(BranchOp),
    // A branch with x0 as its first register.
    First(BranchOp),
    Move,
    Invert,
    Negate,
    IsZero,
    IsNotZero,
    IsNegative,
    IsPositive,
    Jal,
    Jalr,
    Jump,
    JumpRegister,
    Return,
    Call,
    Lui,
    Auipc,
    LoadNumber,
    LoadAddress,
    Nop,
    FenceAll,
    EnvironmentCall,
    Break,
    TextPart,
    DataPart,
    Section,
    Words,
    Halves,
    Bytes,
    Zeros,
    // An alignment to a power of two, by its exponent.
    Power,
    // An alignment by its number of bytes.
    Multiple,
    Equal,
    Ignored,
}

fn reg_mnemonic(name: &[u8]) -> Option<Form>
    ensures { result ≡ look_up reg_mnemonics name.now }
{
    match name {
        b"add" => Some(Form::Reg(RegOp::Add)),
        b"sub" => Some(Form::Reg(RegOp::Sub)),
        b"sll" => Some(Form::Reg(RegOp::Sll)),
        b"slt" => Some(Form::Reg(RegOp::Slt)),
        b"sltu" => Some(Form::Reg(RegOp::Sltu)),
        b"xor" => Some(Form::Reg(RegOp::Xor)),
        b"srl" => Some(Form::Reg(RegOp::Srl)),
        b"sra" => Some(Form::Reg(RegOp::Sra)),
        b"or" => Some(Form::Reg(RegOp::Or)),
        b"and" => Some(Form::Reg(RegOp::And)),
        _ => None,
    }
}

fn imm_mnemonic(name: &[u8]) -> Option<Form>
    ensures { result ≡ look_up imm_mnemonics name.now }
{
    match name {
        b"addi" => Some(Form::Imm(ImmOp::Addi)),
        b"slti" => Some(Form::Imm(ImmOp::Slti)),
        b"sltiu" => Some(Form::Imm(ImmOp::Sltiu)),
        b"xori" => Some(Form::Imm(ImmOp::Xori)),
        b"ori" => Some(Form::Imm(ImmOp::Ori)),
        b"andi" => Some(Form::Imm(ImmOp::Andi)),
        b"slli" => Some(Form::Imm(ImmOp::Slli)),
        b"srli" => Some(Form::Imm(ImmOp::Srli)),
        b"srai" => Some(Form::Imm(ImmOp::Srai)),
        _ => None,
    }
}

fn memory_mnemonic(name: &[u8]) -> Option<Form>
    ensures { result ≡ look_up memory_mnemonics name.now }
{
    match name {
        b"lb" => Some(Form::Load(LoadOp::Lb)),
        b"lh" => Some(Form::Load(LoadOp::Lh)),
        b"lw" => Some(Form::Load(LoadOp::Lw)),
        b"lbu" => Some(Form::Load(LoadOp::Lbu)),
        b"lhu" => Some(Form::Load(LoadOp::Lhu)),
        b"sb" => Some(Form::Store(StoreOp::Sb)),
        b"sh" => Some(Form::Store(StoreOp::Sh)),
        b"sw" => Some(Form::Store(StoreOp::Sw)),
        _ => None,
    }
}

fn branch_mnemonic(name: &[u8]) -> Option<Form>
    ensures { result ≡ look_up branch_mnemonics name.now }
{
    match name {
        b"beq" => Some(Form::Branch(BranchOp::Beq)),
        b"bne" => Some(Form::Branch(BranchOp::Bne)),
        b"blt" => Some(Form::Branch(BranchOp::Blt)),
        b"bge" => Some(Form::Branch(BranchOp::Bge)),
        b"bltu" => Some(Form::Branch(BranchOp::Bltu)),
        b"bgeu" => Some(Form::Branch(BranchOp::Bgeu)),
        b"bgt" => Some(Form::Exchanged(BranchOp::Blt)),
        b"ble" => Some(Form::Exchanged(BranchOp::Bge)),
        b"bgtu" => Some(Form::Exchanged(BranchOp::Bltu)),
        b"bleu" => Some(Form::Exchanged(BranchOp::Bgeu)),
        _ => None,
    }
}

fn zero_mnemonic(name: &[u8]) -> Option<Form>
    ensures { result ≡ look_up zero_mnemonics name.now }
{
    match name {
        b"beqz" => Some(Form::Second(BranchOp::Beq)),
        b"bnez" => Some(Form::Second(BranchOp::Bne)),
        b"blez" => Some(Form::First(BranchOp::Bge)),
        b"bgez" => Some(Form::Second(BranchOp::Bge)),
        b"bltz" => Some(Form::Second(BranchOp::Blt)),
        b"bgtz" => Some(Form::First(BranchOp::Blt)),
        _ => None,
    }
}

fn copy_mnemonic(name: &[u8]) -> Option<Form>
    ensures { result ≡ look_up copy_mnemonics name.now }
{
    match name {
        b"mv" => Some(Form::Move),
        b"not" => Some(Form::Invert),
        b"neg" => Some(Form::Negate),
        b"seqz" => Some(Form::IsZero),
        b"snez" => Some(Form::IsNotZero),
        b"sltz" => Some(Form::IsNegative),
        b"sgtz" => Some(Form::IsPositive),
        _ => None,
    }
}

fn jump_mnemonic(name: &[u8]) -> Option<Form>
    ensures { result ≡ look_up jump_mnemonics name.now }
{
    match name {
        b"jal" => Some(Form::Jal),
        b"jalr" => Some(Form::Jalr),
        b"j" => Some(Form::Jump),
        b"jr" => Some(Form::JumpRegister),
        b"ret" => Some(Form::Return),
        b"call" => Some(Form::Call),
        _ => None,
    }
}

fn value_mnemonic(name: &[u8]) -> Option<Form>
    ensures { result ≡ look_up value_mnemonics name.now }
{
    match name {
        b"lui" => Some(Form::Lui),
        b"auipc" => Some(Form::Auipc),
        b"li" => Some(Form::LoadNumber),
        b"la" => Some(Form::LoadAddress),
        _ => None,
    }
}

fn system_mnemonic(name: &[u8]) -> Option<Form>
    ensures { result ≡ look_up system_mnemonics name.now }
{
    match name {
        b"nop" => Some(Form::Nop),
        b"fence" => Some(Form::FenceAll),
        b"ecall" => Some(Form::EnvironmentCall),
        b"ebreak" => Some(Form::Break),
        _ => None,
    }
}

fn part_directive(name: &[u8]) -> Option<Form>
    ensures { result ≡ look_up part_directives name.now }
{
    match name {
        b".text" => Some(Form::TextPart),
        b".data" => Some(Form::DataPart),
        b".section" => Some(Form::Section),
        _ => None,
    }
}

fn value_directive(name: &[u8]) -> Option<Form>
    ensures { result ≡ look_up value_directives name.now }
{
    match name {
        b".word" => Some(Form::Words),
        b".half" => Some(Form::Halves),
        b".byte" => Some(Form::Bytes),
        _ => None,
    }
}

fn zero_directive(name: &[u8]) -> Option<Form>
    ensures { result ≡ look_up zero_directives name.now }
{
    match name {
        b".zero" => Some(Form::Zeros),
        b".space" => Some(Form::Zeros),
        b".skip" => Some(Form::Zeros),
        _ => None,
    }
}

fn align_directive(name: &[u8]) -> Option<Form>
    ensures { result ≡ look_up align_directives name.now }
{
    match name {
        b".align" => Some(Form::Power),
        b".p2align" => Some(Form::Power),
        b".balign" => Some(Form::Multiple),
        _ => None,
    }
}

fn name_directive(name: &[u8]) -> Option<Form>
    ensures { result ≡ look_up name_directives name.now }
{
    match name {
        b".equ" => Some(Form::Equal),
        b".set" => Some(Form::Equal),
        _ => None,
    }
}

fn symbol_directive(name: &[u8]) -> Option<Form>
    ensures { result ≡ look_up symbol_directives name.now }
{
    match name {
        b".globl" => Some(Form::Ignored),
        b".global" => Some(Form::Ignored),
        b".weak" => Some(Form::Ignored),
        b".local" => Some(Form::Ignored),
        _ => None,
    }
}

fn shape_directive(name: &[u8]) -> Option<Form>
    ensures { result ≡ look_up shape_directives name.now }
{
    match name {
        b".type" => Some(Form::Ignored),
        b".size" => Some(Form::Ignored),
        _ => None,
    }
}

fn file_directive(name: &[u8]) -> Option<Form>
    ensures { result ≡ look_up file_directives name.now }
{
    match name {
        b".file" => Some(Form::Ignored),
        b".ident" => Some(Form::Ignored),
        _ => None,
    }
}

fn option_directive(name: &[u8]) -> Option<Form>
    ensures { result ≡ look_up option_directives name.now }
{
    match name {
        b".option" => Some(Form::Ignored),
        b".attribute" => Some(Form::Ignored),
        _ => None,
    }
}

// What a word asks for.
pub(crate) fn form_of(name: &[u8]) -> Option<Form>
    ensures { result ≡ form_of name.now }
{
    reg_mnemonic(name)
        .or(imm_mnemonic(name))
        .or(memory_mnemonic(name))
        .or(branch_mnemonic(name))
        .or(zero_mnemonic(name))
        .or(copy_mnemonic(name))
        .or(jump_mnemonic(name))
        .or(value_mnemonic(name))
        .or(system_mnemonic(name))
        .or(part_directive(name))
        .or(value_directive(name))
        .or(zero_directive(name))
        .or(align_directive(name))
        .or(name_directive(name))
        .or(symbol_directive(name))
        .or(shape_directive(name))
        .or(file_directive(name))
        .or(option_directive(name))
}
