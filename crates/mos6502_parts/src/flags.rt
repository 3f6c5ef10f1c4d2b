// The flags of the processor, and the byte P that holds them.
ghost use Rattle.std.specs.Prelude.{◌≡◌};
ghost use Rattle.mos6502_parts.specs.Flags.{flag_byte, flags_of, judged};

// Bits 5 and 4 of P are no flags: the one is always set, the other always clear, so that only these six are kept.
#[derive(Clone, Copy, Default)]
pub struct Flags {
    // negative: bit 7 of the last result
    pub n: bool,
    // overflow of a signed sum
    pub v: bool,
    // decimal mode: kept, and ignored by the arithmetic
    pub d: bool,
    // interrupts from the switch are held off
    pub i: bool,
    // the last result was zero
    pub z: bool,
    // carry of a sum, or no borrow in a difference
    pub c: bool,
}

impl Flags {
    // The flags after a result: N and Z speak of it.
    pub fn judge(self, value: u8) -> Flags
        ensures { result ≡ judged self value }
    {
        Flags {
            n: value >= 128,
            z: value == 0,
            ..self
        }
    }
}

// Bits are told by their weights, as in the definitions: with masks, which were tried, the proof did not close.
impl From<Flags> for u8 {
    ghost from_gives = { λ p byte. byte ≡ flag_byte p };

    fn from(p: Flags) -> u8 {
        128 * u8::from(p.n)
            + 64 * u8::from(p.v)
            + 32
            + 8 * u8::from(p.d)
            + 4 * u8::from(p.i)
            + 2 * u8::from(p.z)
            + u8::from(p.c)
    }
}

// What stands in bits 5 and 4 of the byte is left aside.
impl From<u8> for Flags {
    ghost from_gives = { λ byte p. p ≡ flags_of byte };

    fn from(byte: u8) -> Flags {
        Flags {
            n: byte / 128 % 2 == 1,
            v: byte / 64 % 2 == 1,
            d: byte / 8 % 2 == 1,
            i: byte / 4 % 2 == 1,
            z: byte / 2 % 2 == 1,
            c: byte % 2 == 1,
        }
    }
}
