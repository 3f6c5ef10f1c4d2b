// The instructions of RV32I. Register numbers are below 32, and immediates are two's complement numbers of 32 bits.

// What OP and OP-IMM compute.
#[derive(Clone, Copy)]
pub enum Operation {
    Add,
    Sub,
    Sll,
    Slt,
    Sltu,
    Xor,
    Srl,
    Sra,
    Or,
    And,
}

// When a branch is taken.
#[derive(Clone, Copy)]
pub enum Condition {
    Eq,
    Ne,
    Lt,
    Ge,
    Ltu,
    Geu,
}

#[derive(Clone, Copy)]
pub enum LoadKind {
    Lb,
    Lh,
    Lw,
    Lbu,
    Lhu,
}

#[derive(Clone, Copy)]
pub enum StoreKind {
    Sb,
    Sh,
    Sw,
}

// The operands of each format. B has the fields of S and J those of U, but the word holds their immediates otherwise: as types of their own each
// has one conversion from the word.
#[derive(Clone, Copy)]
pub struct RType {
    pub rd: u8,
    pub rs1: u8,
    pub rs2: u8,
}

#[derive(Clone, Copy)]
pub struct IType {
    pub rd: u8,
    pub rs1: u8,
    pub imm: u32,
}

#[derive(Clone, Copy)]
pub struct SType {
    pub rs1: u8,
    pub rs2: u8,
    pub imm: u32,
}

#[derive(Clone, Copy)]
pub struct BType {
    pub rs1: u8,
    pub rs2: u8,
    pub imm: u32,
}

#[derive(Clone, Copy)]
pub struct UType {
    pub rd: u8,
    pub imm: u32,
}

#[derive(Clone, Copy)]
pub struct JType {
    pub rd: u8,
    pub imm: u32,
}

// Return is the house's word 30200073h; Undefined is every word that is no instruction.
#[derive(Clone, Copy)]
pub enum Instruction {
    Lui(UType),
    Auipc(UType),
    Jal(JType),
    Jalr(IType),
    Branch(Condition, BType),
    Load(LoadKind, IType),
    Store(StoreKind, SType),
    OpImm(Operation, IType),
    Op(Operation, RType),
    Fence,
    Ecall,
    Ebreak,
    Return,
    Undefined,
}
