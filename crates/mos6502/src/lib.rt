// The 6502 as a guest of the recorder.
#![tactic(auto)]

ghost use Rattle.std.specs.Prelude.{◌≡◌, true, length};
ghost use Rattle.std.proofs.Common.{rules};
ghost use Rattle.mos6502.specs.Images.{image_of, lawful_image};
ghost use Rattle.mos6502.specs.Guest.{mos6502};
ghost use Rattle.mos6502.specs.Laws.{image_laws, rising};

use crate::events::{hears, take_event};
use crate::images::{load_image, save_image};
use machine::{Event, GuestFault, Machine};
use mos6502_core::cpu::Cpu;
use mos6502_parts::flags::Flags;
use mos6502_parts::memory::Memory;

mod events;
mod images;

// A processor whose image is lawful, with its RAM whole.
#[derive(Drop)]
pub struct Mos6502 {
    cpu: Cpu,
    ghost lawful: { lawful_image (image_of cpu) ≡ true },
    ghost whole: { length cpu.memory.ram ≡ 2048 },
}

impl Machine for Mos6502 {
    ghost kind = { mos6502 };

    ghost image = { λ m. image_of m.cpu };

    const IMAGE_BYTES: usize = images::LENGTH;

    ghost IMAGE_BYTES = { 4106 };

    const GUEST_BYTE: u8 = 1;

    ghost GUEST_BYTE = { 1 };

    ghost sized = { Prim.search rules };

    ghost named = { Prim.search rules };

    ghost lawful = { λ m. m.lawful };

    ghost kept = { image_laws };

    ghost rises = { rising };

    #[tactic(auto, unfolding(crate::specs::Images::image_of, crate::specs::Images::lawful_image))]
    fn fresh() -> Mos6502 {
        let memory = Memory {
            lamp: 0,
            switch: 0,
            ram: [0; 2048],
            rom: [0; 2048],
        };
        Mos6502 {
            cpu: Cpu {
                a: 0,
                x: 0,
                y: 0,
                s: 0,
                p: Flags::default(),
                place: 0,
                stopped: false,
                memory,
            },
        }
    }

    #[tactic(auto, using(crate::specs::Back::image_cpu, crate::specs::Back::sound_image, crate::specs::Back::cpu_sound, crate::specs::Back::lawful_parts))]
    fn load(&mut self, bytes: &[u8]) -> Result<(), GuestFault> {
        self.cpu = load_image(bytes)?;
        Ok(())
    }

    fn save(&self, buffer: &mut [u8]) -> Result<usize, GuestFault> {
        save_image(&self.cpu, buffer)
    }

    #[tactic(auto, using(crate::specs::Back::cpu_image))]
    fn place(&self) -> u32 {
        u32::from(self.cpu.place)
    }

    #[tactic(auto, using(crate::specs::Back::cpu_image))]
    fn stopped(&self) -> bool {
        self.cpu.stopped
    }

    #[tactic(auto, using(crate::specs::Back::cpu_image))]
    fn ready(&self, event: Event) -> bool {
        hears(&self.cpu, event)
    }

    #[tactic(auto, using(crate::specs::Back::cpu_image))]
    fn lamp(&self) -> u8 {
        self.cpu.memory.lamp
    }

    #[tactic(auto, using(crate::specs::Back::cpu_image, crate::specs::Back::sound_image, crate::specs::Back::sound_from, mos6502_core::proofs::Keeps::stepped_kept))]
    fn step(&mut self) -> Option<bool> {
        if self.stopped() {
            return None;
        }
        Some(self.cpu.step())
    }

    #[tactic(auto, using(crate::specs::Back::cpu_image, crate::specs::Back::sound_image, crate::specs::Back::sound_from, crate::specs::Laws::taken_kept))]
    fn take(&mut self, event: Event) -> Option<bool> {
        if !self.ready(event) {
            return None;
        }
        take_event(&mut self.cpu, event);
        Some(true)
    }
}
