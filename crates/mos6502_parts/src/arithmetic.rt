// Arithmetic on bytes, with the flags that it leaves. Each operation is a function of the flags and its operands, as in the manual.
ghost use Rattle.std.specs.Prelude.{◌≡◌};
ghost use Rattle.mos6502_parts.specs.Arithmetic.{sum, difference, compared, changed, tested};

use crate::flags::Flags;
use crate::opcodes::ChangeOp;

// A result, and the flags after it.
#[derive(Clone, Copy)]
pub struct Outcome {
    pub value: u8,
    pub flags: Flags,
}

// The sum of two bytes and the carry.
pub fn add(p: Flags, a: u8, v: u8) -> Outcome
    ensures { result ≡ sum p a v }
{
    let (value, carry) = a.carrying_add(v, p.c);
    let overflow = (a >= 128) == (v >= 128) && (a >= 128) != (value >= 128);
    Outcome {
        value,
        flags: Flags {
            v: overflow,
            c: carry,
            ..p.judge(value)
        },
    }
}

// A difference is the sum with the complement: C stands for no borrow.
pub fn subtract(p: Flags, a: u8, v: u8) -> Outcome
    ensures { result ≡ difference p a v }
{
    add(p, a, !v)
}

pub fn compare(p: Flags, register: u8, v: u8) -> Flags
    ensures { result ≡ compared p register v }
{
    Flags {
        c: register >= v,
        ..p.judge(register.wrapping_sub(v))
    }
}

// What an operation makes of a byte that goes back to where it came from.
pub fn change(op: ChangeOp, p: Flags, v: u8) -> Outcome
    ensures { result ≡ changed op p v }
{
    let (value, c) = match op {
        ChangeOp::Asl => (v % 128 * 2, v >= 128),
        ChangeOp::Dec => (v.wrapping_sub(1), p.c),
        ChangeOp::Inc => (v.wrapping_add(1), p.c),
        ChangeOp::Lsr => (v / 2, v % 2 == 1),
        ChangeOp::Rol => (v % 128 * 2 + u8::from(p.c), v >= 128),
        ChangeOp::Ror => (v / 2 + 128 * u8::from(p.c), v % 2 == 1),
    };
    Outcome {
        value,
        flags: Flags {
            c,
            ..p.judge(value)
        },
    }
}

// Z by the bits that A and the operand share; N and V are bits 7 and 6 of the operand.
pub fn test(p: Flags, a: u8, v: u8) -> Flags
    ensures { result ≡ tested p a v }
{
    Flags {
        n: v / 128 % 2 == 1,
        v: v / 64 % 2 == 1,
        z: a & v == 0,
        ..p
    }
}
