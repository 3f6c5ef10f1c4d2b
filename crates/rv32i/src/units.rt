// One unit: an instruction carried out or an event taken.

ghost use Rattle.std.specs.Prelude.{◌≡◌};
ghost use Rattle.machine.specs.Kinds.{Fits};
ghost use Rattle.rv32i_core.specs.Execution.{stepped, transfers};
ghost use Rattle.rv32i.specs.Images.{Sized};
ghost use Rattle.rv32i.specs.Events.{interrupted};

use machine::Event;
use rv32i_core::state::State;

const TIMER_HANDLER: u32 = 0x10;

const SWITCH_HANDLER: u32 = 0x20;

// Carries out the instruction at the place, and tells whether it was a transfer. The reads after it are for the proof alone: it knows what the types of
// the core's parts say of their sizes once the parts are read. As ghost fields of the parts, each definition that builds one would have to prove them.
pub(crate) fn carry_out(state: &mut State) -> bool
    ensures answer { result ≡ transfers state.old }
    ensures next { state.new ≡ stepped state.old }
    ensures sizes { Sized state.new }
{
    let transfer = state.step();
    let _words = (state.registers.x[0], state.place, state.saved);
    let _memory = (state.bus.rom[0], state.bus.ram[0]);
    transfer
}

// Takes an event: saves the place, lets events wait, and begins the event's handler.
#[tactic(auto, unfolding(crate::specs::Events::interrupted))]
pub(crate) fn interrupt(state: &mut State, event: Event)
    ensures after { state.new ≡ interrupted event state.old }
    ensures data { Fits event }
{
    state.saved = state.place;
    state.enabled = false;
    match event {
        Event::Timer => state.place = TIMER_HANDLER,
        Event::Switch(byte) => {
            state.bus.switch = byte;
            state.place = SWITCH_HANDLER;
        }
    }
}
