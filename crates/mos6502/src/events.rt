// The events that reach the processor from outside.
ghost use Rattle.std.specs.Prelude.{◌≡◌};
ghost use Rattle.machine.specs.Kinds.{Fits};
ghost use Rattle.mos6502.specs.Events.{hears, taken_event};

use machine::Event;
use mos6502_core::cpu::Cpu;
use mos6502_core::instructions::SWITCH_VECTOR;

const TIMER_VECTOR: u16 = 0xFFFA;

// The timer is always heard while the processor runs, the switch where I is clear.
pub fn hears(cpu: &Cpu, event: Event) -> bool
    ensures { result ≡ hears event cpu.now }
{
    match event {
        Event::Timer => !cpu.stopped,
        Event::Switch(_) => !cpu.stopped && !cpu.p.i,
    }
}

// Goes to the handler of the event, whether or not it is heard.
pub fn take_event(cpu: &mut Cpu, event: Event)
    ensures after { cpu.new ≡ taken_event event cpu.old }
    ensures fits { Fits event }
{
    let back = cpu.place;
    let flags = u8::from(cpu.p);
    match event {
        Event::Timer => cpu.interrupt(back, flags, TIMER_VECTOR),
        Event::Switch(byte) => {
            cpu.memory.switch = byte;
            cpu.interrupt(back, flags, SWITCH_VECTOR);
        }
    }
}
