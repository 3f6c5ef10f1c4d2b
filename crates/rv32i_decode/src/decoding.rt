// From a word to its instruction: by the opcode, and then by funct3 and funct7.

ghost use Rattle.std.specs.Prelude.{◌≡◌};
ghost use Rattle.std.specs.Result.{result_ok, result_unwrap_or};
ghost use Rattle.rv32i_decode.specs.Decoding.{operation_of, immediate_operation_of, condition_of, load_of, store_of, jalr_of, branch_of, loading_of, storing_of, op_imm_of, op_of, fence_of, system_of, decoded};
ghost use Rattle.rv32i_decode.specs.Formats.{funct3_of};
ghost use Rattle.rv32i_decode.specs.declared.instructions.Instruction.TheVariants.{Undefined};

use super::formats::Word;
use super::instructions::*;

// Said of a word that is no instruction.
#[derive(Clone, Copy)]
pub(crate) struct NoInstruction;

// The operation that funct3 and funct7 name under OP. OP-IMM reads them otherwise, so that a word alone tells no operation: functions, and no TryFrom.
fn operation(funct3: u32, funct7: u32) -> Result<Operation, NoInstruction>
    ensures { result_ok result ≡ operation_of funct3 funct7 }
{
    match (funct7, funct3) {
        (0x00, 0) => Ok(Operation::Add),
        (0x00, 1) => Ok(Operation::Sll),
        (0x00, 2) => Ok(Operation::Slt),
        (0x00, 3) => Ok(Operation::Sltu),
        (0x00, 4) => Ok(Operation::Xor),
        (0x00, 5) => Ok(Operation::Srl),
        (0x00, 6) => Ok(Operation::Or),
        (0x00, 7) => Ok(Operation::And),
        (0x20, 0) => Ok(Operation::Sub),
        (0x20, 5) => Ok(Operation::Sra),
        _ => Err(NoInstruction),
    }
}

// Under OP-IMM the immediate stands where funct7 would, but for the shifts.
fn immediate_operation(funct3: u32, funct7: u32) -> Result<Operation, NoInstruction>
    ensures { result_ok result ≡ immediate_operation_of funct3 funct7 }
{
    match funct3 {
        1 | 5 => operation(funct3, funct7),
        _ => operation(funct3, 0),
    }
}

impl TryFrom<Word> for Condition {
    type Error = NoInstruction;

    ghost try_from_gives = { λ w r. result_ok r ≡ condition_of (funct3_of w.0) };

    fn try_from(word: Word) -> Result<Condition, NoInstruction> {
        match word.funct3() {
            0 => Ok(Condition::Eq),
            1 => Ok(Condition::Ne),
            4 => Ok(Condition::Lt),
            5 => Ok(Condition::Ge),
            6 => Ok(Condition::Ltu),
            7 => Ok(Condition::Geu),
            _ => Err(NoInstruction),
        }
    }
}

impl TryFrom<Word> for LoadKind {
    type Error = NoInstruction;

    ghost try_from_gives = { λ w r. result_ok r ≡ load_of (funct3_of w.0) };

    fn try_from(word: Word) -> Result<LoadKind, NoInstruction> {
        match word.funct3() {
            0 => Ok(LoadKind::Lb),
            1 => Ok(LoadKind::Lh),
            2 => Ok(LoadKind::Lw),
            4 => Ok(LoadKind::Lbu),
            5 => Ok(LoadKind::Lhu),
            _ => Err(NoInstruction),
        }
    }
}

impl TryFrom<Word> for StoreKind {
    type Error = NoInstruction;

    ghost try_from_gives = { λ w r. result_ok r ≡ store_of (funct3_of w.0) };

    fn try_from(word: Word) -> Result<StoreKind, NoInstruction> {
        match word.funct3() {
            0 => Ok(StoreKind::Sb),
            1 => Ok(StoreKind::Sh),
            2 => Ok(StoreKind::Sw),
            _ => Err(NoInstruction),
        }
    }
}

fn jalr(word: Word) -> Result<Instruction, NoInstruction>
    ensures { result_unwrap_or result Undefined ≡ jalr_of word.0 }
{
    match word.funct3() {
        0 => Ok(Instruction::Jalr(word.into())),
        _ => Err(NoInstruction),
    }
}

// This and what follows, as `jalr` before, are a line or a match each; a function that takes what makes the variant would be no shorter.
fn branch(word: Word) -> Result<Instruction, NoInstruction>
    ensures { result_unwrap_or result Undefined ≡ branch_of word.0 }
{
    Ok(Instruction::Branch(word.try_into()?, word.into()))
}

fn load(word: Word) -> Result<Instruction, NoInstruction>
    ensures { result_unwrap_or result Undefined ≡ loading_of word.0 }
{
    Ok(Instruction::Load(word.try_into()?, word.into()))
}

fn store(word: Word) -> Result<Instruction, NoInstruction>
    ensures { result_unwrap_or result Undefined ≡ storing_of word.0 }
{
    Ok(Instruction::Store(word.try_into()?, word.into()))
}

fn op_imm(word: Word) -> Result<Instruction, NoInstruction>
    ensures { result_unwrap_or result Undefined ≡ op_imm_of word.0 }
{
    let operation = immediate_operation(word.funct3(), word.funct7())?;
    Ok(Instruction::OpImm(operation, word.into()))
}

fn op(word: Word) -> Result<Instruction, NoInstruction>
    ensures { result_unwrap_or result Undefined ≡ op_of word.0 }
{
    let operation = operation(word.funct3(), word.funct7())?;
    Ok(Instruction::Op(operation, word.into()))
}

fn fence(word: Word) -> Result<Instruction, NoInstruction>
    ensures { result_unwrap_or result Undefined ≡ fence_of word.0 }
{
    match word.funct3() {
        0 => Ok(Instruction::Fence),
        _ => Err(NoInstruction),
    }
}

fn system(word: Word) -> Result<Instruction, NoInstruction>
    ensures { result_unwrap_or result Undefined ≡ system_of word.0 }
{
    match word.0 {
        0x0000_0073 => Ok(Instruction::Ecall),
        0x0010_0073 => Ok(Instruction::Ebreak),
        0x3020_0073 => Ok(Instruction::Return),
        _ => Err(NoInstruction),
    }
}

#[tactic(auto, unfolding(crate::specs::Decoding::decoded))]
fn instruction(word: Word) -> Result<Instruction, NoInstruction>
    ensures { result_unwrap_or result Undefined ≡ decoded word.0 }
{
    match word.opcode() {
        0x37 => Ok(Instruction::Lui(word.into())),
        0x17 => Ok(Instruction::Auipc(word.into())),
        0x6f => Ok(Instruction::Jal(word.into())),
        0x67 => jalr(word),
        0x63 => branch(word),
        0x03 => load(word),
        0x23 => store(word),
        0x13 => op_imm(word),
        0x33 => op(word),
        0x0f => fence(word),
        0x73 => system(word),
        _ => Err(NoInstruction),
    }
}

// The instruction that a word is.
pub fn decode(word: u32) -> Instruction
    ensures { result ≡ decoded word }
{
    instruction(Word(word)).unwrap_or(Instruction::Undefined)
}
