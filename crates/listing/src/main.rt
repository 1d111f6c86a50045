// Lists the nine-octet groups of standard input, each as soon as it has come.
#![tactic(auto)]

ghost use Rattle.std.specs.Prelude.{◌≤◌, ◌≡◌, ◌*◌, List, ℕ, length, take, IfSome, OnOk};
ghost use Rattle.std.specs.Io.KnownBytes.{Appends};
ghost use Rattle.lines.specs.Listing.{all_lines, groups, listing, longest};
ghost use Rattle.std.proofs.Common.{rules};
ghost use Rattle.lines.proofs.Appended.{lines_none, lines_then};

use pieces::{Failure, Taker};
use std::io;
use std::io::{Read, Write};

const GROUP: usize = 9;

// The octets of one read, behind at most eight that are held over from the last.
const BUFFER: usize = 32776;

// A longest line for each group of the buffer.
const TEXT: usize = (BUFFER + 8) / 9 * lines::LONGEST;

// Where the lines are written, and room for those of one read.
#[derive(Drop)]
struct Listing<W> {
    output: W,
    text: [u8; TEXT],
}

// All lines of the octets. Only the room that they may need is lent, since all that is lent is wiped.
fn list(octets: &[u8], text: &mut [u8]) -> usize
    requires { groups octets.now * longest ≤ length text.old }
    ensures fits { result ≤ length text.new }
    ensures lines { take result text.new ≡ all_lines octets.now }
{
    let room = octets.len().div_ceil(GROUP) * lines::LONGEST;
    lines::list(octets, &mut text[..room])
}

impl<W: Write> Taker<GROUP, BUFFER> for Listing<W> {
    ghost Takes = { λ s xs t. Appends (W.contents s.output) (W.contents t.output) (all_lines xs) };

    fn take(&mut self, octets: &[u8]) -> io::Result<()> {
        let n = list(octets, &mut self.text);
        self.output.write_all(&self.text[..n])
    }

    ghost size = { Prim.search rules };

    ghost room = { Prim.search rules };

    ghost lent = { Prim.search rules };

    ghost nothing = { λ s. lines_none (W.contents s.output) };

    ghost joins = { λ s t u xs ys n whole first second. lines_then _ _ _ xs ys n whole first second };
}

// Writes the whole listing of the input.
fn list_input<R: Read, W: Write>(input: &mut R, shown: &mut Listing<W>) -> Result<(), Failure>
    ensures { OnOk result (IfSome (R.remaining input.old) (λ xs. Appends (W.contents shown.old.output) (W.contents shown.new.output) (listing xs))) }
{
    shown
        .output
        .write_all(&lines::header())
        .map_err(Failure::Output)?;
    pieces::each(input, shown)
}

fn main(rt: HostRuntime) {
    let mut shown = Listing {
        output: io::writer(&rt),
        text: [0u8; TEXT],
    };
    if let Err(failure) = list_input(&mut rt.stdin(), &mut shown) {
        pieces::tell(&rt, "listing", failure);
    }
}
