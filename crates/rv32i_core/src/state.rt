// The state of the core.

use super::bus::Bus;
use super::registers::Registers;

// The place is the address of the next instruction, and the saved place the one at which the last event was taken. Events wait while `enabled`
// is false, and nothing happens once `stopped` is true.
#[derive(Drop)]
pub struct State {
    pub registers: Registers,
    pub place: u32,
    pub saved: u32,
    pub enabled: bool,
    pub stopped: bool,
    pub bus: Bus,
}
