// The 6502: its registers, its ways of addressing, and what each instruction does.
#![tactic(auto)]

pub mod addresses;
pub mod cpu;
pub mod effects;
pub mod instructions;
