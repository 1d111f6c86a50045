// A recorded day: a log replayed on a table with a line for each log record, and the table at a moment.
#![tactic(auto)]

ghost use Rattle.std.specs.Prelude.{◌≡◌, ◌+◌, ◌*◌, ◌^◌, ◌<◌, ◌≤◌, length};
ghost use Rattle.octets.specs.Octets.{holds_only};
ghost use Rattle.record.specs.Record.{capacity, all_records};
ghost use Rattle.table.specs.Memory.{channel, state_of};
ghost use Rattle.lines.specs.Day.{line_room};
ghost use Rattle.lines.specs.Steps.{Wrote};
ghost use Rattle.day.specs.Day.{entry_count, replayed, log_lines, joined, log_in, replay_returned, moment_in};
ghost use Rattle.day.specs.Steps.{Stepped, Went, Shown};
ghost use Rattle.day.specs.Claims.{Claims};

use lines::Line;
use table::State;

// Where a replay stands: the place of the next log record, and how many octets of text there are.
#[derive(Clone, Copy)]
pub struct Replayed {
    pub place: u64,
    pub length: usize,
}

// Puts a line into the text from a place on, which a replay keeps between its turns. The place after it. The line comes by value: behind
// a reference it is copied once more, which is slower.
fn put_line(text: &mut [u8], at: usize, line: Line) -> usize
    requires { at + length line ≤ length text.old }
    ensures { Wrote text.old at line result text.new }
{
    let octets = line.as_slice();
    let end = at + octets.len();
    text[at..end].copy_from_slice(octets);
    end
}

// Applies a log record where the replay r stands, and puts its line.
fn replay_one(
    s: &mut State,
    memory: &mut [u8],
    r: Replayed,
    octets: &[u8],
    text: &mut [u8],
) -> Replayed
    requires { (r.length + line_room ≤ length text.old) × (r.place + 1 < 2 ^ 64) }
    ensures { Stepped (channel s.old memory.old) r text.old octets.now (channel s.new memory.new) result text.new }
{
    let said = daylog::step(s, memory, octets);
    let line = lines::told_line(r.place, said);
    let length = put_line(text, r.length, line);
    Replayed {
        place: r.place + 1,
        length,
    }
}

// Applies all log records, and puts their lines from the start of the text on.
fn replay_all(s: &mut State, memory: &mut [u8], place: u64, log: &[u8], text: &mut [u8]) -> Replayed
    requires { (entry_count log.now * line_room ≤ length text.old) × (place + entry_count log.now < 2 ^ 64) }
    ensures { Went (channel s.old memory.old) place log.now text.old (entry_count log.now) (channel s.new memory.new) result text.new }
{
    let mut r = Replayed { place, length: 0 };
    for octets in log.chunks(daylog::ENTRY) {
        r = replay_one(s, memory, r, octets, text);
    }
    r
}

// Applies a log to a table, its first log record at a place, and puts a line for each into text, which then holds them and zeros only.
// Where text has no room for a longest line for each, or the next place would not fit, nothing is applied.
pub fn replay(s: &mut State, memory: &mut [u8], place: u64, log: &[u8], text: &mut [u8]) -> Replayed
    ensures answer { (result ≡ replay_returned place (channel s.old memory.old) (log_in place log.now text.old)) × (result.length ≤ length text.old) }
    ensures state { s.new ≡ state_of (replayed (channel s.old memory.old) (log_in place log.now text.old)) }
    ensures memory { memory.new ≡ (replayed (channel s.old memory.old) (log_in place log.now text.old)).memory }
    ensures text { text.new ≡ holds_only (length text.old) (joined (log_lines place (channel s.old memory.old) (log_in place log.now text.old))) }
{
    let n = log.len().div_ceil(daylog::ENTRY);
    let room = n <= text.len() / lines::LINE;
    // `as`: `usize` has no `From` into `u64`
    let fits = n as u64 <= u64::MAX - place;
    if room & fits {
        let r = replay_all(s, memory, place, log, text);
        octets::clear_from(text, r.length);
        return r;
    }
    octets::clear_from(text, 0);
    Replayed { place, length: 0 }
}

// Puts the lines of the first n records into the text, from a place on. The place after them.
fn put_records(text: &mut [u8], at: usize, memory: &[u8], n: usize) -> usize
    requires { (n ≤ capacity memory.now) × (at + n * line_room ≤ length text.old) }
    ensures { Shown (all_records memory.now) text.old at n result text.new }
{
    let mut end = at;
    for i in 0..n {
        let line = lines::record_line(record::load(memory, i));
        end = put_line(text, end, line);
    }
    end
}

// Puts the table's lines into text, which then holds them and zeros only, and answers how many octets they take. Where text has no room
// for a longest line for each, it gets none.
pub fn moment(s: State, memory: &[u8], text: &mut [u8]) -> usize
    ensures value { (result ≡ length (moment_in (channel s memory.now) text.old)) × (result ≤ length text.old) }
    ensures text_after { text.new ≡ holds_only (length text.old) (moment_in (channel s memory.now) text.old) }
{
    let held = record::held_count(memory, s.count as usize);
    if held < text.len() / lines::LINE {
        let first = lines::state_line(s.m1, s.now, s.count);
        let at = put_line(text, 0, first);
        let end = put_records(text, at, memory, held);
        octets::clear_from(text, end);
        return end;
    }
    octets::clear_from(text, 0);
    0
}

// What this crate claims over its promises.
pub fn claims()
    ensures { Claims }
{}
