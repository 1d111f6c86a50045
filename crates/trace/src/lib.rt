// Sequences of calls on one table: demand 3, and what else holds of the calls together.
#![tactic(auto)]

ghost use Rattle.table.specs.Table.{clock, reserve, distance, wipe};
ghost use Rattle.table.specs.Memory.{channel, call_said, Gives, OpenGives};
ghost use Rattle.trace.specs.Claims.{Claims};

use distance::Distance;
use table::{Answer, Request, State};

// What is claimed of the calls. It does nothing: its promise holds the theorems in their place.
pub fn claims()
    ensures { Claims }
{}

// ---- The table's functions give what the theorems ask of real calls. A promise weakened there is not enough here.

fn open_gives(memory: &mut [u8], m1: u32) -> Answer<()>
    ensures { OpenGives m1 memory.old result.said result.state memory.new }
{
    State::open(memory, m1)
}

fn clock_gives(s: State, memory: &mut [u8], slot: u32) -> Answer<u32>
    ensures { Gives (channel s memory.old) (clock slot) (call_said result.said) result.state memory.new }
{
    s.clock(memory, slot)
}

fn reserve_gives(s: State, memory: &mut [u8], q: Request) -> Answer<u32>
    ensures { Gives (channel s memory.old) (reserve q) (call_said result.said) result.state memory.new }
{
    s.reserve(memory, q)
}

fn distance_gives(s: State, memory: &mut [u8], station: u32, d: Distance, limit: f64) -> Answer<u32>
    ensures { Gives (channel s memory.old) (distance station d limit) (call_said result.said) result.state memory.new }
{
    s.distance(memory, station, d, limit)
}

fn wipe_gives(s: State, memory: &mut [u8], station: u32) -> Answer<u32>
    ensures { Gives (channel s memory.old) (wipe station) (call_said result.said) result.state memory.new }
{
    s.wipe(memory, station)
}
