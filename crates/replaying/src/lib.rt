// A log that is replayed as its log records come: the table, and where their lines are written.
#![tactic(auto)]

ghost use Rattle.std.specs.Prelude.{◌≡◌, ◌+◌, ◌*◌, ◌^◌, ◌<◌, ◌≤◌, length, take};
ghost use Rattle.std.proofs.Common.{rules};
ghost use Rattle.table.specs.Memory.{channel};
ghost use Rattle.lines.specs.Day.{line_room};
ghost use Rattle.day.specs.Day.{entry_count};
ghost use Rattle.day.specs.Taken.{Replays};
ghost use Rattle.day.proofs.Taken.{replays_none, replays_then};
ghost use Rattle.replaying.specs.Begun.{replay_begun};
ghost use Rattle.replaying.specs.Taken.{Brought};

use day::Replayed;
use pieces::Taker;
use std::io;
use std::io::Write;
use table::{Answer, State};

// The table that is opened: slots in a superframe, and octets.
const M1: u32 = 4500;

pub const MEMORY: usize = 2048 * record::SIZE;

// The octets of one read, behind those of a log record that are held over from the last.
const BUFFER: usize = 1366 * daylog::ENTRY;

// A longest line for each of a table's records and one more: room for the lines of one read too.
pub const TEXT: usize = 2049 * lines::LINE;

const ENTRY: usize = daylog::ENTRY;

// Where a replay stands: the table, its output, and the place of the next log record. The memory stands first, so that it is aligned and no
// record straddles two lines of the cache.
#[derive(Drop)]
pub struct Replaying<W> {
    pub memory: [u8; MEMORY],
    pub text: [u8; TEXT],
    pub output: W,
    pub state: State,
    pub place: u64,
}

// A replay that begins: the table as it is opened, and nothing written.
pub fn begin<W>(output: W) -> Replaying<W>
    ensures { result ≡ replay_begun output }
{
    let mut memory = [0u8; MEMORY];
    let Answer { said, state } = State::open(&mut memory, M1);

    // The proof shows that this opening is accepted.
    said.unwrap();
    Replaying {
        output,
        state,
        place: 1,
        memory,
        text: [0u8; TEXT],
    }
}

// Replays the log records of octets. Only the room that their lines may need is lent, since all that is lent is wiped.
fn replay(
    state: &mut State,
    memory: &mut [u8],
    place: u64,
    octets: &[u8],
    text: &mut [u8],
) -> Replayed
    requires { entry_count octets.now * line_room ≤ length text.old }
    ensures fits { result.length ≤ length text.new }
    ensures went { place + entry_count octets.now < 2 ^ 64 → Brought place (channel state.old memory.old) octets.now result (channel state.new memory.new) text.new }
{
    let room = octets.len().div_ceil(ENTRY) * lines::LINE;
    day::replay(state, memory, place, octets, &mut text[..room])
}

impl<W: Write> Taker<ENTRY, BUFFER> for Replaying<W> {
    ghost Takes = { λ s xs t. Replays s.place (channel s.state s.memory) (W.contents s.output) xs t.place (channel t.state t.memory) (W.contents t.output) };

    fn take(&mut self, octets: &[u8]) -> io::Result<()> {
        let r = replay(
            &mut self.state,
            &mut self.memory,
            self.place,
            octets,
            &mut self.text,
        );
        self.place = r.place;
        self.output.write_all(&self.text[..r.length])
    }

    ghost size = { Prim.search rules };

    ghost room = { Prim.search rules };

    ghost lent = { Prim.search rules };

    ghost nothing = { λ s. replays_none s.place (channel s.state s.memory) (W.contents s.output) };

    ghost joins = { λ s t u xs ys n whole first second. replays_then _ _ _ xs _ _ _ ys _ _ _ n whole first second };
}
