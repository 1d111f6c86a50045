// Document 01's marked cases, and those of No. 4 and No. 5: one claim over the definitions, and the same cases run through the functions. Beside them run
// cases of slips that the marked ones let through, the parameters' defaults, and 000's example of a superframe block reservation.
#![tactic(auto)]

ghost use Rattle.std.specs.Prelude.{◌≤◌, ◌<◌};
ghost use Rattle.marked.specs.Marked.{Marked};

use distance::{Distance, Offset};
use pieces::Failure;
use refusal::Refusal;
use search::Query;
use slots::Slot;
use std::io;
use table::{Answer, Request, State};

// Every marked case holds of the definitions that the functions promise.
fn claims()
    ensures { Marked }
{}

// ---- what is written: a line's name, its items with a space in front of each, and its end

// Tells why standard output could not be written, unless it was.
fn tell_unless(rt: &(impl Print + Eprint), written: io::Result<()>) {
    if let Err(e) = written {
        pieces::tell(rt, "marked", Failure::Output(e));
    }
}

fn put(rt: &(impl Print + Eprint), text: &[u8]) {
    tell_unless(rt, rt.write_all(text));
}

fn put_number(rt: &(impl Print + Eprint), n: impl Into<u64>) {
    put(rt, b" ");
    tell_unless(rt, rt.print(n.into()));
}

fn put_numbers<N: Copy + Into<u64>>(rt: &(impl Print + Eprint), list: &[N]) {
    for n in list {
        put_number(rt, *n);
    }
}

fn put_refused(rt: &(impl Print + Eprint), e: Refusal) {
    put(rt, b" refused");
    put_number(rt, u32::from(e));
}

fn state_name(x: Slot) -> &'static [u8] {
    match x {
        Slot::Free => b" free",
        Slot::Reusable => b" reusable",
        Slot::Taken => b" taken",
    }
}

fn put_slot(rt: &(impl Print + Eprint), s: State, memory: &[u8], slot: u32) {
    match slots::slot_state(s, memory, slot) {
        Ok(x) => put(rt, state_name(x)),
        Err(e) => put_refused(rt, e),
    }
}

// ---- P1 to P4

const P1: [u8; 9] = [0x00, 0x00, 0x01, 0x20, 0x02, 0x03, 0x05, 0xFE, 0x12];

const P2: [u8; 9] = [0xFF, 0xFF, 0xFF, 0xFF, 0xFF, 0x0D, 0xFF, 0x7F, 0x13];

// A group with another octet k, counted from 1.
fn with(group: [u8; 9], k: usize, octet: u8) -> [u8; 9]
    requires first { 1 ≤ k }
    requires last { k ≤ 9 }
{
    let mut octets = group;
    octets[k - 1] = octet;
    octets
}

// A group's line, which the listing ends.
fn put_group(rt: &(impl Print + Eprint), name: &[u8], octets: &[u8]) {
    let mut text = [0u8; lines::LONGEST];
    let n = lines::list(octets, &mut text);
    put(rt, name);
    put(rt, b" ");
    put(rt, &text[..n]);
}

fn put_readings(rt: &(impl Print + Eprint)) {
    put_group(rt, b"P1", &P1);
    put_group(rt, b"P2", &P2);
    put_group(rt, b"P2 with bs 254:", &with(P2, 7, 0xFE));
    put_group(rt, b"P3", &with(P1, 8, 0x80));
    put_group(rt, b"P4", &with(P1, 7, 0x01));
}

// ---- P5 to P10: record T, alone in its table

// The manual's default for Q2a.
const LIMIT: f64 = 150.0;

// The state that an accepted call hands back.
fn accepted<T: Drop>(a: Answer<T>) -> Result<State, Refusal> {
    a.said.and(Ok(a.state))
}

// The table that holds what is asked for at a slot, alone.
fn reserve_alone(memory: &mut [u8], m1: u32, slot: u32, q: Request) -> Result<State, Refusal> {
    let s = accepted(State::open(memory, m1))?;
    let s = accepted(s.clock(memory, slot))?;
    accepted(s.reserve(memory, q))
}

// What a station asks for T.
fn request_t(station: u32, bo: i32, distance: Distance) -> Request {
    Request {
        station,
        rate: 3,
        superframes: 2,
        bs: 5,
        length: 5,
        bo,
        distance,
        limit: LIMIT,
    }
}

fn reserve_t(memory: &mut [u8], bo: i32, distance: Distance) -> Result<State, Refusal> {
    reserve_alone(memory, 4500, 100, request_t(1, bo, distance))
}

// The last slot of the table's first record.
fn put_last_slot(rt: &(impl Print + Eprint), name: &[u8], s: State, memory: &[u8]) {
    put(rt, name);
    put_number(rt, series::last_slot(record::load(memory, 0), s.m1));
    put(rt, b"\n");
}

fn put_slots(rt: &(impl Print + Eprint), s: State, memory: &[u8]) {
    put(rt, b"P6");
    put_slot(rt, s, memory, 104);
    put_slot(rt, s, memory, 110);
    put_slot(rt, s, memory, 105);
    put_slot(rt, s, memory, 109);
    put(rt, b"\n");
}

// What a clock answers, made on a copy of T's table: the refusal, if any, now, how many records were dropped, and whether T is there.
fn put_clock(rt: &(impl Print + Eprint), s: State, memory: [u8; record::SIZE], slot: u32) {
    let mut left = memory;
    let Answer { said, state } = s.clock(&mut left, slot);
    let dropped = match said {
        Ok(n) => n,
        Err(e) => {
            put_refused(rt, e);
            0
        }
    };
    put(rt, b" now");
    put_number(rt, state.now);
    put(rt, b" dropped");
    put_number(rt, dropped);
    if state.count == 1 {
        put(rt, b" kept");
    } else {
        put(rt, b" gone");
    }
}

// At its last slot, and one later.
fn put_clocks(
    rt: &(impl Print + Eprint),
    name: &[u8],
    s: State,
    memory: [u8; record::SIZE],
    last: u32,
)
    requires { last < 1000000000 }
{
    put(rt, name);
    put_clock(rt, s, memory, last);
    put(rt, b",");
    put_clock(rt, s, memory, last + 1);
    put(rt, b"\n");
}

// What a search for three blocks of two slots gives.
fn put_search(
    rt: &(impl Print + Eprint),
    name: &[u8],
    s: State,
    memory: &[u8],
    map: &[u8],
    lo: u32,
    hi: u32,
) {
    let q = Query {
        lo,
        hi,
        length: 2,
        wanted: 3,
    };
    let mut list = [0u32; 3];
    put(rt, name);
    match search::search(s, memory, map, q, &mut list) {
        Ok(n) => put_numbers(rt, &list[..n as usize]),
        Err(e) => put_refused(rt, e),
    }
    put(rt, b"\n");
}

// T's table with its map beside it.
fn reserve_mapped(memory: &mut [u8], map: &mut [u8], distance: Distance) -> Result<State, Refusal> {
    let mut s = State::default();
    slotmap::open(&mut s, memory, map, 4500)?;
    slotmap::clock(&mut s, memory, map, 100)?;
    slotmap::reserve(&mut s, memory, map, request_t(1, 0, distance))?;
    Ok(s)
}

// What a search gives in it, made anew.
fn put_search_t(
    rt: &(impl Print + Eprint),
    name: &[u8],
    distance: Distance,
    lo: u32,
    hi: u32,
) -> Result<(), Refusal> {
    let mut memory = [0u8; record::SIZE];
    let mut map = [0u8; 4500];
    let s = reserve_mapped(&mut memory, &mut map, distance)?;
    put_search(rt, name, s, &memory, &map, lo, hi);
    Ok(())
}

fn put_t(rt: &(impl Print + Eprint)) -> Result<(), Refusal> {
    let mut memory = [0u8; record::SIZE];
    let near = reserve_t(&mut memory, 0, Distance::Unknown)?;
    put_last_slot(rt, b"P5", near, &memory);
    put_slots(rt, near, &memory);
    put_clocks(rt, b"P7", near, memory, 7609);
    put_search_t(rt, b"P8", Distance::Unknown, 105, 111)?;
    put_search_t(rt, b"P9", Distance::Range(LIMIT), 105, 111)?;
    put_search_t(rt, b"P10", Distance::Unknown, 105, 105)?;
    Ok(())
}

// ---- P11

fn put_offset(rt: &(impl Print + Eprint), east: f64, north: f64) {
    if distance::far(Distance::Offset(Offset { east, north }), LIMIT) {
        put(rt, b" far");
    } else {
        put(rt, b" not far");
    }
}

fn put_offsets(rt: &(impl Print + Eprint)) {
    put(rt, b"P11");
    put_offset(rt, 90.0, 120.0);
    put(rt, b",");
    put_offset(rt, 90.0, 119.0);
    put(rt, b"\n");
}

// ---- No. 4

// T with bo 10.
fn put_offset_t(rt: &(impl Print + Eprint)) -> Result<(), Refusal> {
    let mut memory = [0u8; record::SIZE];
    let s = reserve_t(&mut memory, 10, Distance::Unknown)?;
    put(rt, b"bo 10:");
    let held = put_blocks(rt, s, &memory, 100, 12121);
    put(rt, b", slots held:");
    put_number(rt, held);
    put(rt, b"\n");
    put_last_slot(rt, b"bo 10, last slot:", s, &memory);
    put(rt, b"bo 10, octets:");
    put_numbers(rt, &memory);
    put(rt, b"\n");
    put_clocks(rt, b"bo 10:", s, memory, 12119);
    Ok(())
}

// What a reserve is answered in superframes of 60 slots, at slot 0, and where its blocks lie then.
fn put_short(rt: &(impl Print + Eprint), name: &[u8], bo: i32) -> Result<(), Refusal> {
    let mut memory = [0u8; record::SIZE];
    let s = accepted(State::open(&mut memory, 60))?;
    put(rt, name);
    let Answer { said, state } = s.reserve(&mut memory, request_blocks(1, 2, 5, bo));
    match said {
        Ok(_) => {
            put_blocks(rt, state, &memory, 0, 60);
            put(rt, b", last slot:");
            put_number(rt, series::last_slot(record::load(&memory, 0), 60));
        }
        Err(e) => put_refused(rt, e),
    }
    put(rt, b"\n");
    Ok(())
}

fn put_offsets_of_blocks(rt: &(impl Print + Eprint)) -> Result<(), Refusal> {
    put_offset_t(rt)?;
    put_short(rt, b"M1 60, bo -62:", -62)?;
    put_short(rt, b"M1 60, bo -63:", -63)?;
    Ok(())
}

// ---- No. 5

// The map's octets of the slots 104 to 110 around T's first block, and P8 with one of them changed.
fn put_map(rt: &(impl Print + Eprint)) -> Result<(), Refusal> {
    let mut memory = [0u8; record::SIZE];
    let mut map = [0u8; 4500];
    let s = reserve_mapped(&mut memory, &mut map, Distance::Unknown)?;
    put(rt, b"map, slots 104 to 110:");
    put_numbers(rt, &map[4..11]);
    put(rt, b"\n");
    map[5] = 1;
    put_search(rt, b"P8 with a wrong map:", s, &memory, &map, 105, 111);
    Ok(())
}

// ---- slips that the marked cases let through, the parameters' defaults, and 000's example

// P1 and P2, with bs 254 too, read the same with d bits 27-25 reversed.
fn put_d_bits(rt: &(impl Print + Eprint)) {
    put_group(rt, b"d bit 25:", &with(P1, 4, 0x21));
    put_group(rt, b"d bit 27:", &with(P1, 4, 0x24));
}

fn put_default(rt: &(impl Print + Eprint), number: u32) -> Result<(), Refusal> {
    put_number(rt, codec::default_figure(number)?);
    Ok(())
}

// The defaults of the parameters, which no call over C gives.
fn put_defaults(rt: &(impl Print + Eprint)) -> Result<(), Refusal> {
    put(rt, b"defaults:");
    put_default(rt, 1)?;
    put_default(rt, 2)?;
    put_default(rt, 3)?;
    put(rt, b"\n");
    Ok(())
}

// What a near station asks for in one superframe.
fn request_blocks(rate: u32, bs: u32, length: u32, bo: i32) -> Request {
    Request {
        station: 1,
        rate,
        superframes: 1,
        bs,
        length,
        bo,
        distance: Distance::Unknown,
        limit: LIMIT,
    }
}

fn is_held(s: State, memory: &[u8], slot: u32) -> bool {
    !matches!(slots::judge(s, memory, slot), Slot::Free)
}

// Where the runs of held slots start. How many slots are held.
fn put_blocks(rt: &(impl Print + Eprint), s: State, memory: &[u8], from: u32, to: u32) -> u32 {
    put(rt, b" blocks at");
    let mut was_held = false;
    let mut n = 0;
    for slot in from..to {
        let held = is_held(s, memory, slot);
        if held & !was_held {
            put_number(rt, slot);
        }
        n += u32::from(held);
        was_held = held;
    }
    n
}

// Where M1 is no multiple of the rate R, j*M1/R differs from j*(M1/R).
fn put_spacing(rt: &(impl Print + Eprint), name: &[u8], m1: u32, rate: u32) -> Result<(), Refusal> {
    let mut memory = [0u8; record::SIZE];
    let s = reserve_alone(&mut memory, m1, 0, request_blocks(rate, 2, 1, 0))?;
    put(rt, name);
    put_blocks(rt, s, &memory, 0, m1);
    put(rt, b"\n");
    Ok(())
}

// The table that holds T near, and T far of another station.
fn reserve_both(memory: &mut [u8]) -> Result<State, Refusal> {
    let s = reserve_t(memory, 0, Distance::Unknown)?;
    accepted(s.reserve(memory, request_t(2, 0, Distance::Range(LIMIT))))
}

// One far record is not enough for a slot that a near one also holds.
fn put_near_and_far(rt: &(impl Print + Eprint)) -> Result<(), Refusal> {
    let mut memory = [0u8; 2 * record::SIZE];
    let s = reserve_both(&mut memory)?;
    put(rt, b"near and far on one slot:");
    put_slot(rt, s, &memory, 105);
    let s = accepted(s.wipe(&mut memory, 1))?;
    put(rt, b", far alone:");
    put_slot(rt, s, &memory, 105);
    put(rt, b"\n");
    Ok(())
}

// The numbers of the slots 104 to 110 around T's first block, by one call, in octets that held something else.
fn put_window(rt: &(impl Print + Eprint), name: &[u8], distance: Distance) -> Result<(), Refusal> {
    let mut memory = [0u8; record::SIZE];
    let s = reserve_t(&mut memory, 0, distance)?;
    let mut octets = [7u8; 7 + 32];
    slots::states(s, &memory, 104, &mut octets);
    put(rt, name);
    put_numbers(rt, &octets[..7]);
    Ok(())
}

fn put_windows(rt: &(impl Print + Eprint)) -> Result<(), Refusal> {
    put_window(rt, b"slots 104 to 110, near:", Distance::Unknown)?;
    put_window(rt, b", far:", Distance::Range(LIMIT))?;
    put(rt, b"\n");
    Ok(())
}

fn put_example(rt: &(impl Print + Eprint)) -> Result<(), Refusal> {
    let mut memory = [0u8; record::SIZE];
    let s = reserve_alone(&mut memory, 4500, 90, request_blocks(3, 10, 10, 0))?;
    put(rt, b"000's three blocks of ten slots:");
    let held = put_blocks(rt, s, &memory, 90, 4590);
    put(rt, b", slots held:");
    put_number(rt, held);
    put(rt, b"\n");
    Ok(())
}

// All cases. A refusal where none is expected ends them.
fn put_all(rt: &(impl Print + Eprint)) -> Result<(), Refusal> {
    put_readings(rt);
    put_t(rt)?;
    put_offsets(rt);
    put_offsets_of_blocks(rt)?;
    put_map(rt)?;
    put_d_bits(rt);
    put_defaults(rt)?;
    put_spacing(rt, b"M1 60, rate 7:", 60, 7)?;
    put_spacing(rt, b"M1 4500, rate 8:", 4500, 8)?;
    put_near_and_far(rt)?;
    put_windows(rt)?;
    put_example(rt)
}

fn main(rt: HostRuntime) {
    if let Err(e) = put_all(&rt) {
        put_refused(&rt, e);
    }
}
