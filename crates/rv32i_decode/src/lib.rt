// The instructions of RV32I, and the decoding of a word to one of them.
#![tactic(auto)]

mod decoding;
mod formats;
pub mod instructions;

pub use decoding::decode;
