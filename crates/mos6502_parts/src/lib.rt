// The parts of a 6502: its flags, the arithmetic on bytes, the memory that it sees, and its opcodes.
#![tactic(auto)]

pub mod arithmetic;
pub mod flags;
pub mod memory;
pub mod opcodes;
