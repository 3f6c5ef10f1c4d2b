// What each instruction does, and one step.

ghost use Rattle.std.specs.Prelude.{◌≡◌};
ghost use Rattle.rv32i_core.specs.Words.{◌⊕◌};
ghost use Rattle.rv32i_core.specs.Registers.{register};
ghost use Rattle.rv32i_core.specs.Execution.{halted, onward, written, gone, linked, branched, put_out, returned, effect, elsewhere, stepped, transfers};

use super::state::State;
use super::words::{compute, even, is_met};
use rv32i_decode::decode;
use rv32i_decode::instructions::*;

impl State {
    fn halt(&mut self)
        ensures { self.new ≡ halted self.old }
    {
        self.stopped = true;
    }

    // Goes on to the next instruction.
    fn go_on(&mut self)
        ensures { self.new ≡ onward self.old }
    {
        self.place = self.place.wrapping_add(4);
    }

    // Puts a value in rd and goes on.
    fn finish(&mut self, rd: u8, value: u32)
        ensures { self.new ≡ written self.old rd value }
    {
        self.registers.set(rd, value);
        self.go_on();
    }

    // Goes to a target; one that is no multiple of 4 stops the core. It is a link to x0, and stands apart as a branch does in the manual.
    fn go_to(&mut self, target: u32)
        ensures { self.new ≡ gone self.old target }
    {
        if target % 4 == 0 {
            self.place = target;
        } else {
            self.halt();
        }
    }

    // Goes to a target with the place of the next instruction in rd; a target that is no multiple of 4 stops the core and leaves rd.
    fn link(&mut self, rd: u8, target: u32)
        ensures { self.new ≡ linked self.old rd target }
    {
        let back = self.place.wrapping_add(4);
        if target % 4 == 0 {
            self.registers.set(rd, back);
            self.place = target;
        } else {
            self.halt();
        }
    }

    fn branch(&mut self, condition: Condition, fields: BType)
        ensures { self.new ≡ branched self.old condition fields }
    {
        if is_met(
            condition,
            self.registers.get(fields.rs1),
            self.registers.get(fields.rs2),
        ) {
            let target = self.place.wrapping_add(fields.imm);
            self.go_to(target);
        } else {
            self.go_on();
        }
    }

    fn store(&mut self, kind: StoreKind, fields: SType)
        ensures { self.new ≡ put_out self.old kind fields }
    {
        let address = self.address(fields.rs1, fields.imm);
        let value = self.registers.get(fields.rs2);
        self.bus.store(kind, address, value);
        self.go_on();
    }

    // The address that a load, a store or JALR reckons.
    fn address(&self, rs1: u8, imm: u32) -> u32
        ensures { result ≡ register self.now.registers rs1 ⊕ imm }
    {
        self.registers.get(rs1).wrapping_add(imm)
    }

    // Goes back to where the last event was taken, ready for the next.
    fn resume(&mut self)
        ensures { self.new ≡ returned self.old }
    {
        self.place = self.saved;
        self.enabled = true;
    }

    fn execute(&mut self, instruction: Instruction)
        ensures { self.new ≡ effect self.old instruction }
    {
        match instruction {
            Instruction::Lui(UType { rd, imm }) => self.finish(rd, imm),
            Instruction::Auipc(UType { rd, imm }) => {
                let value = self.place.wrapping_add(imm);
                self.finish(rd, value);
            }
            Instruction::Jal(JType { rd, imm }) => {
                let target = self.place.wrapping_add(imm);
                self.link(rd, target);
            }
            Instruction::Jalr(IType { rd, rs1, imm }) => {
                let target = even(self.address(rs1, imm));
                self.link(rd, target);
            }
            Instruction::Branch(condition, fields) => self.branch(condition, fields),
            Instruction::Load(kind, IType { rd, rs1, imm }) => {
                let value = self.bus.load(kind, self.address(rs1, imm));
                self.finish(rd, value);
            }
            Instruction::Store(kind, fields) => self.store(kind, fields),
            Instruction::OpImm(operation, IType { rd, rs1, imm }) => {
                let value = compute(operation, self.registers.get(rs1), imm);
                self.finish(rd, value);
            }
            Instruction::Op(operation, RType { rd, rs1, rs2 }) => {
                let value = compute(operation, self.registers.get(rs1), self.registers.get(rs2));
                self.finish(rd, value);
            }
            Instruction::Fence => self.go_on(),
            Instruction::Return => self.resume(),
            Instruction::Ecall | Instruction::Ebreak | Instruction::Undefined => self.halt(),
        }
    }

    // Whether the core is stopped, or elsewhere than just past the instruction at `start`, reckoned without wrap.
    fn is_elsewhere(&self, start: u32) -> bool
        ensures { result ≡ elsewhere start self.now }
    {
        self.stopped || u64::from(self.place) != u64::from(start) + 4
    }

    // Carries out the instruction at the place, and tells whether it was a transfer.
    #[tactic(auto, unfolding(crate::specs::Execution::stepped))]
    pub fn step(&mut self) -> bool
        ensures answer { result ≡ transfers self.old }
        ensures next { self.new ≡ stepped self.old }
    {
        let start = self.place;
        let word = self.bus.word(start);
        self.execute(decode(word));
        self.is_elsewhere(start)
    }
}
