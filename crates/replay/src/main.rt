// Replays the log on standard input: a line for each log record, as soon as it has come.
#![tactic(auto)]

ghost use Rattle.std.specs.Prelude.{◌≡◌, ◌+◌, ◌^◌, ◌<◌, IfSome, OnOk};
ghost use Rattle.std.specs.Io.KnownBytes.{Appends};
ghost use Rattle.table.specs.Memory.{channel};
ghost use Rattle.day.specs.Day.{day_opened, entry_count, replay_text};

use pieces::Failure;
use replaying::Replaying;
use std::io;
use std::io::{Read, Write};

// Writes the text of the whole log, where its places fit 64 bits.
fn replay_input<R: Read, W: Write>(input: &mut R, shown: &mut Replaying<W>) -> Result<(), Failure>
    requires first { shown.old.place ≡ 1 }
    requires opened { channel shown.old.state shown.old.memory ≡ day_opened }
    ensures { OnOk result (IfSome (R.remaining input.old) (λ xs.
        1 + entry_count xs < 2 ^ 64 → Appends (W.contents shown.old.output) (W.contents shown.new.output) (replay_text xs))) }
{
    pieces::each(input, shown)
}

fn main(rt: HostRuntime) {
    let mut shown = replaying::begin(io::writer(&rt));
    if let Err(failure) = replay_input(&mut rt.stdin(), &mut shown) {
        pieces::tell(&rt, "replay", failure);
    }
}
