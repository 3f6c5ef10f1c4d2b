// The RV32I guest: the core behind the interface of a guest.
#![tactic(auto)]

mod image;
mod units;

ghost use Rattle.std.specs.Prelude.{◌≡◌, true};
ghost use Rattle.rv32i.specs.Images.{image_of, core_of, lawful};
ghost use Rattle.rv32i.specs.Guest.{rv32i};
ghost use Rattle.rv32i.specs.Laws.{laws};
ghost use Rattle.rv32i.specs.Laws;
ghost use Rattle.std.proofs.Common.{rules};

use machine::{Event, GuestFault, Machine};
use rv32i_core::bus::Bus;
use rv32i_core::registers::Registers;
use rv32i_core::state::State;

// A guest: a core whose image is lawful and tells the whole of it.
#[derive(Drop)]
pub struct Rv32i {
    state: State,
    ghost sound: { lawful (image_of state) ≡ true },
    ghost whole: { core_of (image_of state) ≡ state },
}

impl Machine for Rv32i {
    ghost kind = { rv32i };

    ghost image = { λ m. image_of m.state };

    const IMAGE_BYTES: usize = image::LENGTH;

    ghost IMAGE_BYTES = { 4232 };

    const GUEST_BYTE: u8 = 2;

    ghost GUEST_BYTE = { 2 };

    ghost sized = { Prim.search rules };

    ghost named = { Prim.search rules };

    ghost lawful = { λ m. m.sound };

    ghost kept = { laws };

    ghost rises = { Laws.rises };

    #[tactic(auto, unfolding(crate::specs::Images::image_of, crate::specs::Images::core_of, crate::specs::Images::words_in, crate::specs::Images::lawful, crate::specs::Images::blank))]
    fn fresh() -> Rv32i {
        let registers = Registers { x: [0; 31] };
        let bus = Bus {
            rom: [0; 2048],
            ram: [0; 2048],
            lamp: 0,
            switch: 0,
        };
        Rv32i {
            state: State {
                registers,
                place: 0,
                saved: 0,
                enabled: true,
                stopped: false,
                bus,
            },
        }
    }

    #[tactic(auto, using(crate::specs::Laws::image_back))]
    fn load(&mut self, bytes: &[u8]) -> Result<(), GuestFault> {
        self.state = image::read(bytes)?;
        Ok(())
    }

    fn save(&self, buffer: &mut [u8]) -> Result<usize, GuestFault> {
        let image = buffer
            .first_chunk_mut()
            .ok_or(GuestFault::ShortBuffer(image::LENGTH))?;
        image::write(&self.state, image);
        Ok(image::LENGTH)
    }

    #[tactic(auto, using(crate::proofs::Seen::place_seen))]
    fn place(&self) -> u32 {
        self.state.place
    }

    #[tactic(auto, using(crate::proofs::Seen::stopped_seen))]
    fn stopped(&self) -> bool {
        self.state.stopped
    }

    // Either event is ready while events are enabled and the guest runs.
    #[tactic(auto, using(crate::proofs::Seen::enabled_seen))]
    fn ready(&self, _event: Event) -> bool {
        self.state.enabled && !self.stopped()
    }

    #[tactic(auto, using(crate::proofs::Seen::lamp_seen))]
    fn lamp(&self) -> u8 {
        self.state.bus.lamp
    }

    #[tactic(auto, using(crate::specs::ImagesLemmas::core_told, crate::proofs::Seen::next_seen, crate::proofs::Seen::moves_seen, crate::proofs::Seen::next_sound))]
    fn step(&mut self) -> Option<bool> {
        if self.stopped() {
            return None;
        }
        Some(units::carry_out(&mut self.state))
    }

    #[tactic(auto, using(crate::proofs::Seen::taken_seen, crate::proofs::Seen::taken_sound, crate::proofs::Seen::taken_whole))]
    fn take(&mut self, event: Event) -> Option<bool> {
        if !self.ready(event) {
            return None;
        }
        units::interrupt(&mut self.state, event);
        Some(true)
    }
}
