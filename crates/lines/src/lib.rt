// Every line that a program writes: the listing of nine-octet groups, put into a lent text; those of a replayed log and of a table by value.
#![tactic(auto)]

ghost use Rattle.std.specs.Prelude.{◌≡◌, [], ◌∷◌, ◌++◌, ◌+◌, ◌*◌, ◌<◌, ◌≤◌, length};
ghost use Rattle.octets.specs.Octets.{holds_only};
ghost use Rattle.octets.specs.Refusals.{answer};
ghost use Rattle.lines.specs.Text.{decimal, signed_decimal};
ghost use Rattle.lines.specs.Listing.{header, destination_text, block_line, refused_line, line, group, groups, all_lines, longest, lines_in};
ghost use Rattle.lines.specs.Day.{ok_line, said_line, told_line, state_line, record_line, line_room};
ghost use Rattle.lines.specs.Steps.{Room, Put, Wrote, three, field};
ghost use Rattle.lines.specs.Claims.{Claims};

use codec::{Block, Destination};
use record::Rec;
use refusal::Refusal;
use std::marker::Model;

// No line of a listing is longer: "134217727 31 255 13 254 -127 3" and its end.
pub const LONGEST: usize = 31;

// No other line is longer: "4294967295 4294967295 255 255 255 255 -128" and its end.
pub const LINE: usize = 43;

// A line by value: a clause sees its text.
#[derive(Clone, Copy)]
pub struct Line {
    length: usize,
    octets: [u8; LINE],
}

impl Model for Line {
    ghost use Rattle.std.specs.Prelude.{ℕ, List, length as len, take};
    ghost use Rattle.octets.specs.Octets.{holds_only};
    ghost use Rattle.lines.specs.Day.{line_room, IsLine};

    ghost Value = { List ℕ };

    ghost view = { λ l. take l.length l.octets };

    ghost invariant = { λ l. IsLine l.length l.octets };

    ghost inverse = { λ xs. record { length = len xs; octets = holds_only line_room xs } };

    ghost inverse_ok = { λ l h i. record { length = h.1 i; octets = h.2 i } };
}

impl Line {
    // Its text.
    pub fn as_slice(&self) -> &[u8]
        ensures text { result.now ≡ self.now }
        ensures short { length result.now ≤ line_room }
    {
        &self.octets[..self.length]
    }
}

// A text that is put into lent octets: it ends at a place of them. Each function asks for room for what it puts, which is no fact about a writer alone.
#[derive(Drop)]
struct Writer<'a> {
    octets: &'a mut [u8],
    at: usize,
}

impl Writer<'_> {
    fn put(&mut self, b: u8)
        requires { Room self.old (b ∷ []) }
        ensures { Put self.old (b ∷ []) self.new }
    {
        self.octets[self.at] = b;
        self.at += 1;
    }

    // Octet by octet, so that of a constant text each is a constant: `copy_from_slice` would test first whether the two overlap.
    fn put_text(&mut self, s: &[u8])
        requires { Room self.old s.now }
        ensures { Put self.old s.now self.new }
    {
        for &b in s {
            self.put(b);
        }
    }

    // A number below 1000, with zeros in front.
    fn put_three(&mut self, n: u32)
        requires { (n < 1000) × Room self.old (three n) }
        ensures { Put self.old (three n) self.new }
    {
        self.put(digit(n / 100));
        self.put(digit(n / 10 % 10));
        self.put(digit(n % 10));
    }

    // A number below 1000, with no zero in front: such a zero is put too, and the next digit then takes its place.
    // A place moved by a test's outcome takes no branch, which the processor would often guess wrong.
    fn put_small(&mut self, n: u32)
        requires { (n < 1000) × Room self.old (decimal n) }
        ensures { Put self.old (decimal n) self.new }
    {
        let hundreds = digit(n / 100);
        let tens = digit(n / 10 % 10);
        let ones = digit(n % 10);
        let i = self.at;
        let j = i + usize::from(99 < n);
        let k = j + usize::from(9 < n);
        self.octets[i] = hundreds;
        self.octets[j] = tens;
        self.octets[k] = ones;
        self.at = k + 1;
    }

    // Apart from the recursion, so that it is inlined: most numbers are below 1000, of which `as` loses nothing.
    fn put_decimal(&mut self, n: u64)
        requires { Room self.old (decimal n) }
        ensures { Put self.old (decimal n) self.new }
    {
        if n < 1000 {
            self.put_small(n as u32);
        } else {
            self.at = put_long(self.octets, self.at, n);
        }
    }

    // A number, and the octet that follows it. With `as` the compiler knows in `put_long` that the number has 32 bits, with `from` not.
    fn put_field(&mut self, n: u32, after: u8)
        requires { Room self.old (field n after) }
        ensures { Put self.old (field n after) self.new }
    {
        self.put_decimal(n as u64);
        self.put(after);
    }

    // A signed number, and the octet that follows it: a minus is put, and the number takes its place where it is not negative.
    fn put_signed(&mut self, z: i32, after: u8)
        requires { Room self.old (signed_decimal z ++ (after ∷ [])) }
        ensures { Put self.old (signed_decimal z ++ (after ∷ [])) self.new }
    {
        self.octets[self.at] = b'-';
        self.at += usize::from(z < 0);
        self.put_field(z.unsigned_abs(), after);
    }

    // What is printed for d, and a space.
    fn put_destination(&mut self, d: Destination)
        requires { Room self.old (destination_text d ++ (32 ∷ [])) }
        ensures { Put self.old (destination_text d ++ (32 ∷ [])) self.new }
    {
        match d {
            Destination::Address(a) => self.put_field(a, b' '),
            Destination::NoRebroadcast(_, _, _) => {
                self.put(b'-');
                self.put(b' ');
            }
        }
    }

    fn put_fields(&mut self, b: Block)
        requires { Room self.old (block_line b) }
        ensures { Put self.old (block_line b) self.new }
    {
        self.put_destination(b.d);
        self.put_field(b.blg, b' ');
        self.put_field(b.roff, b' ');
        self.put_field(b.br, b' ');
        self.put_field(b.bs, b' ');
        self.put_signed(b.bo, b' ');
        self.put_field(b.bt, b'\n');
    }

    // A word and a number, which end a line.
    fn put_told(&mut self, word: &[u8], n: u32)
        requires { Room self.old (word.now ++ field n 10) }
        ensures { Put self.old (word.now ++ field n 10) self.new }
    {
        self.put_text(word);
        self.put_field(n, b'\n');
    }

    fn put_refused(&mut self, n: u32)
        requires { Room self.old (refused_line n) }
        ensures { Put self.old (refused_line n) self.new }
    {
        self.put_told(b"refused ", n);
    }

    fn put_line(&mut self, group: &[u8])
        requires { self.old.at + longest ≤ length self.old.octets.now }
        ensures put { Put self.old (line group.now) self.new }
        ensures short { self.new.at ≤ self.old.at + longest }
    {
        match codec::read(group) {
            Ok(block) => self.put_fields(block),
            Err(e) => self.put_refused(u32::from(e)),
        }
    }

    // The lines of all n groups. The loop over `input.chunks(9)` is slower.
    fn put_lines(&mut self, input: &[u8], n: usize)
        requires { (n ≡ groups input.now) × (self.old.at + n * longest ≤ length self.old.octets.now) }
        ensures put { Put self.old (all_lines input.now) self.new }
        ensures short { self.new.at ≤ self.old.at + n * longest }
    {
        for k in 0..n {
            self.put_line(group_of(input, k));
        }
    }

    // What was said to a log record.
    fn put_said(&mut self, refusal: u32, number: u32)
        requires { Room self.old (answer refusal (ok_line number) refused_line) }
        ensures { Put self.old (answer refusal (ok_line number) refused_line) self.new }
    {
        if refusal == 0 {
            self.put_told(b"ok ", number);
        } else {
            self.put_refused(refusal);
        }
    }

    fn put_record(&mut self, r: Rec)
        requires { Room self.old (record_line r) }
        ensures { Put self.old (record_line r) self.new }
    {
        self.put_field(r.station, b' ');
        self.put_field(r.first, b' ');
        self.put_field(u32::from(r.rate), b' ');
        self.put_field(u32::from(r.superframes), b' ');
        self.put_field(u32::from(r.length), b' ');
        self.put_field(u32::from(r.far), b' ');
        self.put_signed(octets::signed(r.bo), b'\n');
    }
}

// A number from 1000 on, three digits at a time: no division by a variable, and few turns. It takes the octets and the place, and no
// writer: one that a recursion takes is not kept in registers. What `as` narrows is below 1000.
fn put_long(octets: &mut [u8], at: usize, n: u64) -> usize
    requires { (1000 ≤ n) × (at + length (decimal n) ≤ length octets.old) }
    ensures { Wrote octets.old at (decimal n) result octets.new }
{
    let high = n / 1000;
    if high < 1000 {
        let mut writer = Writer { octets, at };
        writer.put_small(high as u32);
        writer.put_three((n % 1000) as u32);
        return writer.at;
    }
    let at = put_long(octets, at, high);
    let mut writer = Writer { octets, at };
    writer.put_three((n % 1000) as u32);
    writer.at
}

fn digit(n: u32) -> u8
    requires { n < 10 }
    ensures { result ≡ 48 + n }
{
    48 + n as u8
}

// Group k, counted from 0.
fn group_of(input: &[u8], k: usize) -> &[u8]
    requires { k < groups input.now }
    ensures { result.now ≡ group input.now k }
{
    let from = k * 9;
    if input.len() - from < 9 {
        return &input[from..];
    }
    let end = from + 9;
    &input[from..end]
}

// Puts the lines of all groups of the input into text, which then holds them and zeros only, and answers how many octets
// they take. Where text has no room for a longest line for each group, it gets none.
pub fn list(input: &[u8], text: &mut [u8]) -> usize
    ensures value { result ≡ length (lines_in input.now text.old) }
    ensures text_after { text.new ≡ holds_only (length text.old) (lines_in input.now text.old) }
{
    let n = input.len().div_ceil(9);
    if text.len() / LONGEST < n {
        octets::clear_from(text, 0);
        return 0;
    }
    let mut writer = Writer {
        octets: text,
        at: 0,
    };
    writer.put_lines(input, n);
    let end = writer.at;
    octets::clear_from(text, end);
    end
}

// The header line.
pub fn header() -> [u8; 23]
    ensures { result ≡ header }
{
    *b"d blg roff br bs bo bt\n"
}

// The line of a log record: its place, and what was said to it.
pub fn said_line(place: u64, refusal: u32, number: u32) -> Line
    ensures { (result ≡ said_line place refusal number) × (length result ≤ line_room) }
{
    let mut line = Line {
        length: 0,
        octets: [0; LINE],
    };
    let mut writer = Writer {
        octets: &mut line.octets,
        at: 0,
    };
    writer.put_decimal(place);
    writer.put(b' ');
    writer.put_said(refusal, number);
    line.length = writer.at;
    line
}

// The line of a call's result.
pub fn told_line(place: u64, said: Result<u32, Refusal>) -> Line
    ensures { (result ≡ told_line place said) × (length result ≤ line_room) }
{
    match said {
        Ok(number) => said_line(place, 0, number),
        Err(e) => said_line(place, u32::from(e), 0),
    }
}

// A table's first line.
pub fn state_line(m1: u32, time: u32, count: u32) -> Line
    ensures { (result ≡ state_line m1 time count) × (length result ≤ line_room) }
{
    let mut line = Line {
        length: 0,
        octets: [0; LINE],
    };
    let mut writer = Writer {
        octets: &mut line.octets,
        at: 0,
    };
    writer.put_field(m1, b' ');
    writer.put_field(time, b' ');
    writer.put_field(count, b'\n');
    line.length = writer.at;
    line
}

// A record's line.
pub fn record_line(r: Rec) -> Line
    ensures { (result ≡ record_line r) × (length result ≤ line_room) }
{
    let mut line = Line {
        length: 0,
        octets: [0; LINE],
    };
    let mut writer = Writer {
        octets: &mut line.octets,
        at: 0,
    };
    writer.put_record(r);
    line.length = writer.at;
    line
}

// What this crate claims over its promises.
pub fn claims()
    ensures { Claims }
{}
