// The instruction formats: the fields of a word, and the immediates.

ghost use Rattle.std.specs.Prelude.{◌≡◌, ◌+◌, ◌-◌, ◌^◌, ◌<◌, ◌≤◌};
ghost use Rattle.rv32i_decode.specs.Formats.{inst, sign_extended, opcode_of, rd_of, funct3_of, rs1_of, rs2_of, funct7_of, imm_i, imm_s, imm_b, imm_u, imm_j, r_type, i_type, s_type, b_type, u_type, j_type};

use super::instructions::*;

// A word that may be an instruction.
#[derive(Clone, Copy)]
pub(crate) struct Word(pub(crate) u32);

impl Word {
    // inst[high:low], a part of the word but not the whole.
    #[tactic(auto, using(std::proofs::lemmas::Nat::one_shl), unfolding(crate::specs::Formats::inst))]
    fn bits(self, high: u32, low: u32) -> u32
        requires ordered { low ≤ high }
        requires inside { high < 32 }
        requires part { high + 1 - low < 32 }
        ensures value { result ≡ inst self.0 high low }
        ensures small { result < 2 ^ (high + 1 - low) }
    {
        (self.0 >> low) % (1 << (high + 1 - low))
    }

    pub(crate) fn opcode(self) -> u32
        ensures { result ≡ opcode_of self.0 }
    {
        self.bits(6, 0)
    }

    fn rd(self) -> u8
        ensures { result ≡ rd_of self.0 }
    {
        self.bits(11, 7) as u8
    }

    pub(crate) fn funct3(self) -> u32
        ensures { result ≡ funct3_of self.0 }
    {
        self.bits(14, 12)
    }

    fn rs1(self) -> u8
        ensures { result ≡ rs1_of self.0 }
    {
        self.bits(19, 15) as u8
    }

    fn rs2(self) -> u8
        ensures { result ≡ rs2_of self.0 }
    {
        self.bits(24, 20) as u8
    }

    pub(crate) fn funct7(self) -> u32
        ensures { result ≡ funct7_of self.0 }
    {
        self.bits(31, 25)
    }

    fn immediate_i(self) -> u32
        ensures { result ≡ imm_i self.0 }
    {
        sign_extend(12, self.bits(31, 20))
    }

    fn immediate_s(self) -> u32
        ensures { result ≡ imm_s self.0 }
    {
        sign_extend(12, (self.bits(31, 25) << 5) + self.bits(11, 7))
    }

    fn immediate_b(self) -> u32
        ensures { result ≡ imm_b self.0 }
    {
        let high = (self.bits(31, 31) << 12) + (self.bits(7, 7) << 11);
        sign_extend(
            13,
            high + (self.bits(30, 25) << 5) + (self.bits(11, 8) << 1),
        )
    }

    fn immediate_u(self) -> u32
        ensures { result ≡ imm_u self.0 }
    {
        self.bits(31, 12) << 12
    }

    fn immediate_j(self) -> u32
        ensures { result ≡ imm_j self.0 }
    {
        let high = (self.bits(31, 31) << 20) + (self.bits(19, 12) << 12);
        sign_extend(
            21,
            high + (self.bits(20, 20) << 11) + (self.bits(30, 21) << 1),
        )
    }
}

// The low `width` bits hold a two's complement number; its sign is carried on to 32 bits.
#[tactic(auto, using(std::proofs::lemmas::Nat::one_shl, std::proofs::lemmas::Nat::pow_below), unfolding(crate::specs::Formats::sign_extended))]
fn sign_extend(width: u32, value: u32) -> u32
    requires some { 0 < width }
    requires part { width < 32 }
    requires fits { value < 2 ^ width }
    ensures { result ≡ sign_extended width value }
{
    if value < 1 << (width - 1) {
        value
    } else {
        value.wrapping_sub(1 << width)
    }
}

impl From<Word> for RType {
    ghost from_gives = { λ w f. f ≡ r_type w.0 };

    fn from(word: Word) -> RType {
        RType {
            rd: word.rd(),
            rs1: word.rs1(),
            rs2: word.rs2(),
        }
    }
}

impl From<Word> for IType {
    ghost from_gives = { λ w f. f ≡ i_type w.0 };

    fn from(word: Word) -> IType {
        IType {
            rd: word.rd(),
            rs1: word.rs1(),
            imm: word.immediate_i(),
        }
    }
}

impl From<Word> for SType {
    ghost from_gives = { λ w f. f ≡ s_type w.0 };

    fn from(word: Word) -> SType {
        SType {
            rs1: word.rs1(),
            rs2: word.rs2(),
            imm: word.immediate_s(),
        }
    }
}

impl From<Word> for BType {
    ghost from_gives = { λ w f. f ≡ b_type w.0 };

    fn from(word: Word) -> BType {
        BType {
            rs1: word.rs1(),
            rs2: word.rs2(),
            imm: word.immediate_b(),
        }
    }
}

impl From<Word> for UType {
    ghost from_gives = { λ w f. f ≡ u_type w.0 };

    fn from(word: Word) -> UType {
        UType {
            rd: word.rd(),
            imm: word.immediate_u(),
        }
    }
}

impl From<Word> for JType {
    ghost from_gives = { λ w f. f ≡ j_type w.0 };

    fn from(word: Word) -> JType {
        JType {
            rd: word.rd(),
            imm: word.immediate_j(),
        }
    }
}
