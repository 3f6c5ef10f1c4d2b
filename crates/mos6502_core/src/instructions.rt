// What each instruction does, and one step of the processor.
ghost use Rattle.std.specs.Prelude.{◌≡◌};
ghost use Rattle.mos6502_core.specs.Instructions.{put_a, worked, register, branched, implied, executed, stepped, transfers};

use crate::cpu::Cpu;
use mos6502_parts::arithmetic::{Outcome, add, change, compare, subtract, test};
use mos6502_parts::flags::Flags;
use mos6502_parts::opcodes::{BranchOp, ImpliedOp, Instruction, ReadOp, StoreOp, decode};

// BRK and the switch go through this vector.
pub const SWITCH_VECTOR: u16 = 0xFFFE;

// Set in the pushed P where an instruction pushed it.
const BREAK: u8 = 16;

impl Cpu {
    // Where a branch leads: elsewhere by one flag, or on.
    fn branch(&self, op: BranchOp) -> u16
        ensures { result ≡ branched op self.now }
    {
        let p = self.p;
        let taken = match op {
            BranchOp::Bcc => !p.c,
            BranchOp::Bcs => p.c,
            BranchOp::Beq => p.z,
            BranchOp::Bmi => p.n,
            BranchOp::Bne => !p.z,
            BranchOp::Bpl => !p.n,
            BranchOp::Bvc => !p.v,
            BranchOp::Bvs => p.v,
        };
        if taken {
            self.relative()
        } else {
            self.place.wrapping_add(2)
        }
    }

    fn set_a(&mut self, outcome: Outcome)
        ensures { self.new ≡ put_a outcome self.old }
    {
        self.a = outcome.value;
        self.p = outcome.flags;
    }

    fn work(&mut self, op: ReadOp, byte: u8)
        ensures { self.new ≡ worked op byte self.old }
    {
        match op {
            ReadOp::Adc => self.set_a(add(self.p, self.a, byte)),
            ReadOp::And => self.a = self.judged(self.a & byte),
            ReadOp::Bit => self.p = test(self.p, self.a, byte),
            ReadOp::Cmp => self.p = compare(self.p, self.a, byte),
            ReadOp::Cpx => self.p = compare(self.p, self.x, byte),
            ReadOp::Cpy => self.p = compare(self.p, self.y, byte),
            ReadOp::Eor => self.a = self.judged(self.a ^ byte),
            ReadOp::Lda => self.a = self.judged(byte),
            ReadOp::Ldx => self.x = self.judged(byte),
            ReadOp::Ldy => self.y = self.judged(byte),
            ReadOp::Ora => self.a = self.judged(self.a | byte),
            ReadOp::Sbc => self.set_a(subtract(self.p, self.a, byte)),
        }
    }

    fn register(&self, op: StoreOp) -> u8
        ensures { result ≡ register op self.now }
    {
        match op {
            StoreOp::Sta => self.a,
            StoreOp::Stx => self.x,
            StoreOp::Sty => self.y,
        }
    }

    fn implied(&mut self, op: ImpliedOp)
        ensures { self.new ≡ implied op self.old }
    {
        match op {
            ImpliedOp::Brk => self.interrupt(
                self.place.wrapping_add(1),
                u8::from(self.p) + BREAK,
                SWITCH_VECTOR,
            ),
            ImpliedOp::Clc => self.p.c = false,
            ImpliedOp::Cld => self.p.d = false,
            ImpliedOp::Cli => self.p.i = false,
            ImpliedOp::Clv => self.p.v = false,
            ImpliedOp::Dex => self.x = self.judged(self.x.wrapping_sub(1)),
            ImpliedOp::Dey => self.y = self.judged(self.y.wrapping_sub(1)),
            ImpliedOp::Inx => self.x = self.judged(self.x.wrapping_add(1)),
            ImpliedOp::Iny => self.y = self.judged(self.y.wrapping_add(1)),
            ImpliedOp::Nop => {}
            ImpliedOp::Pha => self.push(self.a),
            ImpliedOp::Php => self.push(u8::from(self.p) + BREAK),
            ImpliedOp::Pla => {
                let byte = self.pull();
                self.a = self.judged(byte);
            }
            ImpliedOp::Plp => self.p = Flags::from(self.pull()),
            ImpliedOp::Rti => self.resume(),
            ImpliedOp::Rts => self.retire(),
            ImpliedOp::Sec => self.p.c = true,
            ImpliedOp::Sed => self.p.d = true,
            ImpliedOp::Sei => self.p.i = true,
            ImpliedOp::Tax => self.x = self.judged(self.a),
            ImpliedOp::Tay => self.y = self.judged(self.a),
            ImpliedOp::Tsx => self.x = self.judged(self.s),
            ImpliedOp::Txa => self.a = self.judged(self.x),
            ImpliedOp::Txs => self.s = self.x,
            ImpliedOp::Tya => self.a = self.judged(self.y),
        }
    }

    #[tactic(auto, unfolding(crate::specs::Instructions::executed))]
    fn execute(&mut self, instruction: Instruction)
        ensures { self.new ≡ executed instruction self.old }
    {
        let past = self.place.wrapping_add(instruction.size());
        match instruction {
            Instruction::Read(op, mode) => {
                let byte = self.memory.read(self.address(mode));
                self.place = past;
                self.work(op, byte);
            }
            Instruction::Store(op, mode) => {
                let at = self.address(mode);
                let byte = self.register(op);
                self.place = past;
                self.memory.write(at, byte);
            }
            Instruction::Change(op, mode) => {
                let at = self.address(mode);
                self.place = past;
                let outcome = change(op, self.p, self.memory.read(at));
                self.put(at, outcome);
            }
            Instruction::ChangeA(op) => {
                self.place = past;
                self.set_a(change(op, self.p, self.a));
            }
            Instruction::Branch(op) => self.place = self.branch(op),
            Instruction::Jmp => self.place = self.absolute(0),
            Instruction::JmpIndirect => self.place = self.indirect(self.absolute(0)),
            Instruction::Jsr => self.call(),
            Instruction::Implied(op) => {
                self.place = past;
                self.implied(op);
            }
            Instruction::Undefined => self.stopped = true,
        }
    }

    // Carries out the instruction at the place, and tells whether it was a transfer: it stopped the processor or did not end just past itself.
    pub fn step(&mut self) -> bool
        ensures answer { result ≡ transfers self.old }
        ensures next { self.new ≡ stepped self.old }
    {
        let instruction = decode(self.memory.read(self.place));
        let past = u32::from(self.place) + u32::from(instruction.size());
        self.execute(instruction);
        self.stopped || u32::from(self.place) != past
    }
}
