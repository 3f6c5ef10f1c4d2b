// What instructions have in common: N and Z by a result, the stack, calls and interrupts.
ghost use Rattle.std.specs.Prelude.{◌≡◌};
ghost use Rattle.mos6502_parts.specs.Flags.{judged};
ghost use Rattle.mos6502_core.specs.Registers.{with_p};
ghost use Rattle.mos6502_core.specs.Effects.{put, pushed, pulled, top, pushed_word, pulled_word, top_word, interrupted, resumed, called, retired};

use crate::cpu::Cpu;
use mos6502_parts::arithmetic::Outcome;
use mos6502_parts::flags::Flags;

impl Cpu {
    // Hands on a byte that goes to a register, with N and Z by it.
    pub(crate) fn judged(&mut self, byte: u8) -> u8
        ensures value { result ≡ byte }
        ensures after { self.new ≡ with_p self.old (judged self.old.p byte) }
    {
        self.p = self.p.judge(byte);
        byte
    }

    // Puts the outcome of an operation back where its operand came from.
    pub(crate) fn put(&mut self, at: u16, outcome: Outcome)
        ensures { self.new ≡ put at outcome self.old }
    {
        self.memory.write(at, outcome.value);
        self.p = outcome.flags;
    }

    pub(crate) fn push(&mut self, byte: u8)
        ensures { self.new ≡ pushed byte self.old }
    {
        self.memory.write(256 + u16::from(self.s), byte);
        self.s = self.s.wrapping_sub(1);
    }

    pub(crate) fn pull(&mut self) -> u8
        ensures value { result ≡ top self.old }
        ensures after { self.new ≡ pulled self.old }
    {
        self.s = self.s.wrapping_add(1);
        self.memory.read(256 + u16::from(self.s))
    }

    // The high byte goes first, so that the low byte lies below it.
    pub(crate) fn push_word(&mut self, word: u16)
        ensures { self.new ≡ pushed_word word self.old }
    {
        let [high, low] = word.to_be_bytes();
        self.push(high);
        self.push(low);
    }

    pub(crate) fn pull_word(&mut self) -> u16
        ensures value { result ≡ top_word self.old }
        ensures after { self.new ≡ pulled_word self.old }
    {
        let low = self.pull();
        let high = self.pull();
        u16::from_le_bytes([low, high])
    }

    // Leaves for a handler: the way back and P go on the stack, and the switch is held off.
    pub fn interrupt(&mut self, back: u16, flags: u8, vector: u16)
        ensures { self.new ≡ interrupted back flags vector self.old }
    {
        self.push_word(back);
        self.push(flags);
        self.p.i = true;
        self.place = self.memory.word(vector, vector.wrapping_add(1));
    }

    // RTI: comes back from a handler.
    pub(crate) fn resume(&mut self)
        ensures { self.new ≡ resumed self.old }
    {
        self.p = Flags::from(self.pull());
        self.place = self.pull_word();
    }

    // JSR: the low byte of the target is taken before the pushes, the high byte after them. It shows where the instruction lies on the stack.
    pub(crate) fn call(&mut self)
        ensures { self.new ≡ called self.old }
    {
        let low = self.memory.read(self.place.wrapping_add(1));
        let last = self.place.wrapping_add(2);
        self.push_word(last);
        self.place = u16::from_le_bytes([low, self.memory.read(last)]);
    }

    // RTS: comes back from a call.
    pub(crate) fn retire(&mut self)
        ensures { self.new ≡ retired self.old }
    {
        self.place = self.pull_word().wrapping_add(1);
    }
}
