// Where the operand of an instruction stands. The place is still that of the opcode.
ghost use Rattle.std.specs.Prelude.{◌≡◌};
ghost use Rattle.mos6502_core.specs.Addresses.{address, zero_page_address, absolute, pointer, relative, indirect};

use crate::cpu::Cpu;
use mos6502_parts::opcodes::Mode;

impl Cpu {
    // The byte behind the opcode with an index added: it stays in the zero page.
    fn zero_page(&self, index: u8) -> u8
        ensures { result ≡ zero_page_address self.now index }
    {
        self.memory
            .read(self.place.wrapping_add(1))
            .wrapping_add(index)
    }

    // The word behind the opcode with an index added.
    pub(crate) fn absolute(&self, index: u8) -> u16
        ensures { result ≡ absolute self.now index }
    {
        let word = self
            .memory
            .word(self.place.wrapping_add(1), self.place.wrapping_add(2));
        word.wrapping_add(u16::from(index))
    }

    // The word at a zero-page address: its second byte stays in the zero page too.
    fn pointer(&self, at: u8) -> u16
        ensures { result ≡ pointer self.now at }
    {
        self.memory
            .word(u16::from(at), u16::from(at.wrapping_add(1)))
    }

    // The word at an address, with its second byte taken from the same page.
    pub(crate) fn indirect(&self, at: u16) -> u16
        ensures { result ≡ indirect self.now at }
    {
        let [page, low] = at.to_be_bytes();
        self.memory
            .word(at, u16::from_be_bytes([page, low.wrapping_add(1)]))
    }

    // The target of a branch, from 128 bytes before the next instruction to 127 behind it.
    pub(crate) fn relative(&self) -> u16
        ensures { result ≡ relative self.now }
    {
        let offset = self.memory.read(self.place.wrapping_add(1)).cast_signed();
        self.place
            .wrapping_add(2)
            .wrapping_add_signed(i16::from(offset))
    }

    pub(crate) fn address(&self, mode: Mode) -> u16
        ensures { result ≡ address mode self.now }
    {
        match mode {
            Mode::Immediate => self.place.wrapping_add(1),
            Mode::ZeroPage => u16::from(self.zero_page(0)),
            Mode::ZeroPageX => u16::from(self.zero_page(self.x)),
            Mode::ZeroPageY => u16::from(self.zero_page(self.y)),
            Mode::Absolute => self.absolute(0),
            Mode::AbsoluteX => self.absolute(self.x),
            Mode::AbsoluteY => self.absolute(self.y),
            Mode::IndexedIndirect => self.pointer(self.zero_page(self.x)),
            Mode::IndirectIndexed => self
                .pointer(self.zero_page(0))
                .wrapping_add(u16::from(self.y)),
        }
    }
}
