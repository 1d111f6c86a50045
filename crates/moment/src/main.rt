// Shows the table that the log on standard input leaves: M1, now and count, and its records.
#![tactic(auto)]

ghost use Rattle.std.specs.Prelude.{◌≡◌, ◌+◌, ◌*◌, ◌^◌, ◌<◌, ◌≤◌, length, IfSome, OnOk};
ghost use Rattle.std.specs.Io.KnownBytes.{Appends};
ghost use Rattle.table.specs.Memory.{channel};
ghost use Rattle.lines.specs.Day.{line_room};
ghost use Rattle.day.specs.Day.{day_opened, entry_count, joined, moment_lines, moment_text};

use pieces::Failure;
use replaying::Replaying;
use std::io;
use std::io::{Read, Sink, Write};
use table::State;

// Writes a table's text.
fn show<W: Write>(output: &mut W, state: State, memory: &[u8], text: &mut [u8]) -> io::Result<()>
    requires table { length memory.now ≡ 32768 }
    requires room { 2049 * line_room ≤ length text.old }
    ensures { OnOk result (Appends (W.contents output.old) (W.contents output.new) (joined (moment_lines (channel state memory.now)))) }
{
    let n = day::moment(state, memory, text);
    output.write_all(&text[..n])
}

// Writes the text of the table that the whole log leaves, where its places fit 64 bits. The lines of the replay are not shown.
fn show_moment<R: Read, W: Write>(
    input: &mut R,
    replayed: &mut Replaying<Sink>,
    output: &mut W,
) -> Result<(), Failure>
    requires first { replayed.old.place ≡ 1 }
    requires opened { channel replayed.old.state replayed.old.memory ≡ day_opened }
    ensures { OnOk result (IfSome (R.remaining input.old) (λ xs.
        1 + entry_count xs < 2 ^ 64 → Appends (W.contents output.old) (W.contents output.new) (moment_text xs))) }
{
    pieces::each(input, replayed)?;
    show(output, replayed.state, &replayed.memory, &mut replayed.text).map_err(Failure::Output)
}

fn main(rt: HostRuntime) {
    let mut replayed = replaying::begin(io::sink());
    if let Err(failure) = show_moment(&mut rt.stdin(), &mut replayed, &mut io::writer(&rt)) {
        pieces::tell(&rt, "moment", failure);
    }
}
