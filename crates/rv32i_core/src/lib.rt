// An RV32I core: its registers, its bus, and what each instruction does.
#![tactic(auto)]

pub mod bus;
mod execution;
pub mod registers;
pub mod state;
mod words;
