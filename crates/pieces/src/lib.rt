// Hands a stream's octets on in whole pieces, each as soon as it has come, and tells of a standard stream that failed.
#![tactic(auto)]

ghost use Rattle.std.specs.Prelude.{◌≡◌, ◌<◌, ◌≤◌, ◌*◌, ◌^◌, ℕ, List, [], ◌++◌, length, take, MatchOption, IfSome, IfOk, OnOk};
ghost use Rattle.pieces.specs.Steps.{ReadOn, WentOn, Ended};

use std::io::{ErrorKind, Read};
use std::{fmt, io};

// Which standard stream failed, and why.
#[derive(Debug, Drop)]
pub enum Failure {
    Input(io::Error),
    Output(io::Error),
}

impl fmt::Display for Failure {
    fn fmt<W: fmt::Write>(&self, f: &mut fmt::Formatter<W>) -> fmt::Result {
        match self {
            Failure::Input(e) => write!(f, "standard input: {e}"),
            Failure::Output(e) => write!(f, "standard output: {e}"),
        }
    }
}

// What takes a stream in pieces of SIZE octets, at most ROOM octets at once.
pub trait Taker<const SIZE: usize, const ROOM: usize> {
    // what the octets make of it
    ghost Takes: { Self → List ℕ → Self → Type 0 };

    // Takes whole pieces, and at the stream's end what there is of one more.
    fn take(&mut self, octets: &[u8]) -> io::Result<()>
        requires { length octets.now ≤ ROOM }
        ensures { OnOk result (Takes self.old octets.now self.new) };

    ghost size: { 0 < SIZE };

    ghost room: { SIZE ≤ ROOM };

    // An array of so many octets can be lent.
    ghost lent: { ROOM < 2 ^ 63 };

    ghost nothing: { (s : Self) → Takes s [] s };

    // It does not matter in which whole pieces octets come.
    ghost joins: { (s t u : Self) (xs ys : List ℕ) (n : ℕ) → length xs ≡ n * SIZE → Takes s xs t → Takes t ys u → Takes s (xs ++ ys) u };
}

// One read, behind the octets held. How many there are then: no more at the stream's end.
fn read_on<R: Read>(input: &mut R, buffer: &mut [u8], held: usize) -> io::Result<usize>
    requires { held < length buffer.old }
    ensures size { length buffer.new ≡ length buffer.old }
    ensures octets { IfOk result (λ n. ReadOn (R.remaining input.old) (R.remaining input.new) held n buffer.old buffer.new) }
{
    let got = input.read(&mut buffer[held..])?;
    Ok(held + got)
}

// One turn: a read, whose whole pieces are taken, those held before it first. How many octets are held then, at the buffer's front; None at the
// stream's end, where those held are taken too.
fn take_turn<const SIZE: usize, const ROOM: usize, R: Read, T: Taker<SIZE, ROOM>>(
    input: &mut R,
    taker: &mut T,
    buffer: &mut [u8; ROOM],
    held: usize,
) -> Result<Option<usize>, Failure>
    requires held { held < SIZE }
    ensures fewer { IfOk result (λ left. IfSome left (λ n. n < SIZE)) }
    ensures taken { IfOk result (λ left. MatchOption left
        (Ended (R.remaining input.old) (R.remaining input.new) (take held buffer.old) (λ xs. T.Takes taker.old xs taker.new))
        (λ n. WentOn SIZE (R.remaining input.old) (R.remaining input.new) (take held buffer.old) n buffer.new (λ xs. T.Takes taker.old xs taker.new))) }
{
    let total = read_on(input, buffer, held).map_err(Failure::Input)?;
    if total == held {
        taker.take(&buffer[..held]).map_err(Failure::Output)?;
        return Ok(None);
    }
    let whole = total / SIZE * SIZE;
    let left = total - whole;
    taker.take(&buffer[..whole]).map_err(Failure::Output)?;
    octets::to_front(buffer, whole, left);
    Ok(Some(left))
}

// Has all of a stream taken. A proved loop has to end, and nothing says that the stream does, so the turns are counted.
pub fn each<const SIZE: usize, const ROOM: usize, R: Read, T: Taker<SIZE, ROOM>>(
    input: &mut R,
    taker: &mut T,
) -> Result<(), Failure>
    ensures { OnOk result (IfSome (R.remaining input.old) (λ xs. T.Takes taker.old xs taker.new)) }
{
    let mut buffer = [0u8; ROOM];
    let mut held = 0;
    for _ in 0..u64::MAX {
        let Some(left) = take_turn(input, taker, &mut buffer, held)? else {
            return Ok(());
        };
        held = left;
    }
    Err(Failure::Input(ErrorKind::TimedOut.into()))
}

// Tells of a failure on standard error, and of one of the input on standard output too. Where standard error fails as well, nobody can be told.
pub fn tell(rt: &(impl Print + Eprint), program: &str, failure: Failure) {
    let _ = eprintln!(rt; "{program}: {failure}");
    if let Failure::Input(_) = failure {
        if let Err(e) = rt.write_all(b"read failed\n") {
            let output = Failure::Output(e);
            let _ = eprintln!(rt; "{program}: {output}");
        }
    }
}
