// The registers, with the memory that the processor sees.
use mos6502_parts::flags::Flags;
use mos6502_parts::memory::Memory;

#[derive(Drop)]
pub struct Cpu {
    pub a: u8,
    pub x: u8,
    pub y: u8,
    // the stack pointer: the stack is the page 0100h
    pub s: u8,
    pub p: Flags,
    // the address of the next instruction
    pub place: u16,
    pub stopped: bool,
    pub memory: Memory,
}
