// Arithmetic on words of 32 bits.

ghost use Rattle.std.specs.Prelude.{◌≡◌, ◌*◌, ◌/◌, ℤ};
ghost use Rattle.rv32i_core.specs.Words.{computed, met, word_of};

use rv32i_decode::instructions::{Condition, Operation};

// The value that an operation puts in rd.
pub(crate) fn compute(operation: Operation, a: u32, b: u32) -> u32
    ensures { result ≡ computed operation a b }
{
    match operation {
        Operation::Add => a.wrapping_add(b),
        Operation::Sub => a.wrapping_sub(b),
        Operation::Sll => a << (b % 32),
        Operation::Slt => u32::from(a.cast_signed() < b.cast_signed()),
        Operation::Sltu => u32::from(a < b),
        Operation::Xor => a ^ b,
        Operation::Srl => a >> (b % 32),
        Operation::Sra => (a.cast_signed() >> (b % 32)).cast_unsigned(),
        Operation::Or => a | b,
        Operation::And => a & b,
    }
}

// Whether a branch is taken.
pub(crate) fn is_met(condition: Condition, a: u32, b: u32) -> bool
    ensures { result ≡ met condition a b }
{
    match condition {
        Condition::Eq => a == b,
        Condition::Ne => a != b,
        Condition::Lt => a.cast_signed() < b.cast_signed(),
        Condition::Ge => a.cast_signed() >= b.cast_signed(),
        Condition::Ltu => a < b,
        Condition::Geu => a >= b,
    }
}

// A signed number of at most 32 bits as a word: its sign is carried on.
pub(crate) fn extend<T: Into<i32>>(number: T) -> u32
    ensures { (z : ℤ) × T.converts number z × (result ≡ word_of z) }
{
    let wide: i32 = number.into();
    wide.cast_unsigned()
}

// The number with bit 0 cleared.
#[tactic(auto, using(crate::proofs::Numbers::evened))]
pub(crate) fn even(target: u32) -> u32
    ensures { result ≡ target / 2 * 2 }
{
    target & !1
}
