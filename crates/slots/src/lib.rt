// The state of a slot by the records of a table, and the states of the slots of a window, worked out record by record.
#![tactic(auto)]

ghost use Rattle.std.specs.Prelude.{◌≡◌, true, ◌&&◌, ℕ, ◌+◌, ◌-◌, ◌*◌, ◌/◌, ◌≤◌, ◌<◌, leb, ltb, length as len, drop};
ghost use Rattle.octets.specs.Lists.{keep};
ghost use Rattle.octets.specs.Octets.{zero_from, holds_only};
ghost use Rattle.record.specs.Record.{capacity};
ghost use Rattle.series.specs.Series.{in_block, reserves};
ghost use Rattle.sound.specs.Sound.{records};
ghost use Rattle.table.specs.Memory.{channel};
ghost use Rattle.slots.specs.Slots.{state_number, slot_state, slot_answer, slot_given};
ghost use Rattle.slots.specs.Window.{window_states, window_slots, raised, part_of};
ghost use Rattle.slots.specs.Steps.{holds_more, mark_of, holds, holds_between, Few, Between, held_left, held_lifted, records_from, begins_at, takes, Apart, Starts, BegunBlock, MarkedWhere, MarkedSlots, from_up_to, WindowFits, Raised, AtLeast};
ghost use Rattle.slots.specs.Claims.{Claims};

mod block_series;

use block_series::Series;
use record::Rec;
use refusal::Refusal;
use std::hint::select_unpredictable;
use table::State;

// A slot's state.
#[derive(Clone, Copy, Debug, PartialEq, Eq)]
pub enum Slot {
    Free = 0,
    Reusable = 1,
    Taken = 2,
}

// The number of a state, which `as` reads off its case.
impl From<Slot> for u32 {
    ghost from_gives = { λ x n. n ≡ state_number x };

    fn from(x: Slot) -> u32 {
        x as u32
    }
}

// Some of a table's records: all, those from a place on, those of a station, those of the other stations.
#[derive(Clone, Copy)]
pub enum Part {
    All,
    From(u32),
    Own(u32),
    Others(u32),
}

impl Part {
    // The place that it begins at.
    fn begins_at(self) -> usize
        ensures { result ≡ begins_at self }
    {
        match self {
            Part::From(place) => place as usize,
            _ => 0,
        }
    }

    // Whether it has a record that stands where it begins or behind that.
    fn takes(self, r: Rec) -> bool
        ensures { result ≡ takes self r }
    {
        match self {
            Part::Own(station) => r.station == station,
            Part::Others(station) => r.station != station,
            _ => true,
        }
    }
}

// A mark: 1 far, 2 near.
#[derive(Clone, Copy)]
struct Mark {
    octet: u8,
    ghost small: { octet ≤ 2 },
}

impl Mark {
    // That of a record.
    fn of(far: u8) -> Self
        ensures { result.octet ≡ mark_of far }
    {
        if far == 1 {
            return Mark { octet: 1 };
        }
        Mark { octet: 2 }
    }
}

// Superframes of a record's blocks, with 128 added to their slots: of its own, M1 slots each and the first from `from` on, those from `first` up to
// `own`, and then, where `all` is one more, the further one, from `next` on.
#[derive(Clone, Copy)]
struct Superframes {
    from: u64,
    m1: u32,
    next: u64,
    first: u32,
    own: u32,
    all: u32,
}

// The first of some superframes, and the first behind them.
#[derive(Clone, Copy)]
struct Bounds {
    first: u32,
    behind: u32,
}

// ---- the slot state

// Whether a record holds a slot. A far one is not asked where far ones do already: it changes nothing then.
fn holds_more(r: Rec, m1: u32, slot: u32, any: bool) -> bool
    ensures { result ≡ holds_more m1 slot any r }
{
    let far = r.far == 1;
    if any & far {
        return false;
    }
    series::reserves(r, m1, slot)
}

// The state of any slot by the records held: it neither tests the table nor refuses a slot, and stops at the first near holder.
pub fn judge(s: State, memory: &[u8], slot: u32) -> Slot
    ensures { result ≡ slot_state s.m1 (records (channel s memory.now)) slot }
{
    let held = record::held_count(memory, s.count as usize);
    let mut any = false;
    for i in 0..held {
        let r = record::load(memory, i);
        let holds = holds_more(r, s.m1, slot, any);
        let near = r.far != 1;
        if holds & near {
            return Slot::Taken;
        }
        any = any | holds;
    }
    if any {
        return Slot::Reusable;
    }
    Slot::Free
}

// The slot state. Refused, in this order: 11, 12 for a slot behind now, 13 above the limit.
pub fn slot_state(s: State, memory: &[u8], slot: u32) -> Result<Slot, Refusal>
    ensures { slot_given result ≡ slot_answer (channel s memory.now) slot }
{
    if !table::is_sound(s, memory) {
        return Err(Refusal::NotSound);
    }
    if slot < s.now {
        return Err(Refusal::Behind);
    }
    if 1000000000 < slot {
        return Err(Refusal::Late);
    }
    Ok(judge(s, memory, slot))
}

// ---- a window of slots from lo on: octets, 32 more behind them
// The octets and lo are two parameters: a struct that holds lent octets can't keep a fact about them (`WindowFits`), and each contract would grow.

// The first slot behind it. (`as`: `usize` has no `From` into `u64`.)
fn end_of(out: &[u8], lo: u64) -> u64
    requires { WindowFits lo out.now }
    ensures { result ≡ lo + window_slots out.now }
{
    lo + (out.len() - 32) as u64
}

// ---- one block

// Marks the octets from a place up to another.
fn mark_run(out: &mut [u8], from: usize, to: usize, mark: Mark)
    requires { to ≤ len out.old }
    ensures { MarkedWhere (len out.old) mark.octet (from_up_to from to) out.old out.new }
{
    for i in from..to {
        out[i] = out[i].max(mark.octet);
    }
}

// Marks those slots of a block that lie in the window.
fn mark_block(out: &mut [u8], lo: u64, start: u64, length: u64, mark: Mark)
    requires { WindowFits lo out.old × (start ≤ 4398046511104) × (length ≤ 4398046511104) }
    ensures { MarkedSlots lo mark.octet (in_block start length) out.old out.new }
{
    let end = end_of(out, lo);
    let from = start.saturating_sub(lo);
    let to = (start + length).min(end).saturating_sub(lo);
    mark_run(out, from as usize, to as usize, mark);
}

// Marks a block of at most WIDTH slots, all of them at once: so many octets from its place on are raised, those behind the block to 0. Three for
// each slot of the block, less one and three for each slot before: in the block that is 2 at least, behind it 0. The one makes all places alike to
// the compiler.
fn mark_wide<const WIDTH: u8>(out: &mut [u8], at: usize, length: u8, mark: Mark)
    requires { (at + 32 ≤ len out.old) × (length ≤ WIDTH) × (WIDTH ≤ 32) }
    ensures { MarkedWhere (len out.old) mark.octet (in_block at length) out.old out.new }
{
    let edge = length * 3;
    for d in 0..WIDTH {
        let place = at + usize::from(d);
        let raised = mark.octet.min(edge.saturating_sub(d * 3 + 1));
        out[place] = out[place].max(raised);
    }
}

// Marks what a block that started by lo, of at most WIDTH slots, has left in the window.
fn mark_rest<const WIDTH: u8>(out: &mut [u8], lo: u64, start: u64, length: u8, mark: Mark)
    requires { (start ≤ lo) × (lo ≤ 4398046511104) × (32 ≤ len out.old) × (length ≤ WIDTH) × (WIDTH ≤ 32) }
    ensures { MarkedWhere (len out.old) mark.octet (λ i. in_block start length (lo + i)) out.old out.new }
{
    let left = (start + u64::from(length)).saturating_sub(lo);
    mark_wide::<WIDTH>(out, 0, left as u8, mark);
}

// ---- a series of blocks, in a window

// Marks the blocks of a series, of at most WIDTH slots each, that start from the start of one on, which is at lo or behind it, and before a stop.
fn mark_ahead<const WIDTH: u8>(out: &mut [u8], lo: u64, next: u64, stop: u64, s: Series, mark: Mark)
    requires { Starts s next × (lo ≤ next) × (lo ≤ stop) × Apart WIDTH s × (stop ≤ s.start + s.blocks * s.spacing) × (stop + 32 ≤ lo + len out.old) }
    ensures { MarkedWhere (len out.old) mark.octet (λ i. holds_between next stop s (lo + i)) out.old out.new }
{
    let behind = (stop - lo) as usize;
    let mut at = (next - lo) as usize;
    // `step_by` tests once more for each block: up to an eighth slower.
    while at < behind {
        mark_wide::<WIDTH>(out, at, s.length, mark);
        at += s.spacing as usize;
    }
}

// Of a series whose blocks lie apart, of at most WIDTH slots each, marks the block that started before lo and may not be over; where the next one
// starts.
fn mark_begun<const WIDTH: u8>(out: &mut [u8], lo: u64, s: Series, mark: Mark) -> u64
    requires { WindowFits lo out.old × Apart WIDTH s × (lo < s.start + s.blocks * s.spacing) }
    ensures { BegunBlock lo s mark.octet out.old out.new result }
{
    if lo <= s.start {
        return s.start;
    }
    let spacing = u64::from(s.spacing);
    let begun = s.start + (lo - s.start) / spacing * spacing;
    mark_rest::<WIDTH>(out, lo, begun, s.length, mark);
    begun + spacing
}

// Marks the blocks of a series that lie apart, of at most WIDTH slots each. Where they end is worked out before the block that started before lo is
// found, which takes a division.
fn mark_apart<const WIDTH: u8>(out: &mut [u8], lo: u64, s: Series, mark: Mark)
    requires { Apart WIDTH s × (lo ≤ s.start + (s.blocks - 1) * s.spacing + s.length) × WindowFits lo out.old }
    ensures { MarkedSlots lo mark.octet (holds s) out.old out.new }
{
    let stop = (s.start + s.run()).min(end_of(out, lo));
    let next = mark_begun::<WIDTH>(out, lo, s, mark);
    mark_ahead::<WIDTH>(out, lo, next, stop, s, mark);
}

// Marks block after block.
fn mark_each(out: &mut [u8], lo: u64, s: Series, mark: Mark)
    requires { WindowFits lo out.old }
    ensures { MarkedSlots lo mark.octet (holds s) out.old out.new }
{
    for j in 0..s.blocks {
        let start = s.start + u64::from(j) * u64::from(s.spacing);
        mark_block(out, lo, start, u64::from(s.length), mark);
    }
}

// Marks the blocks of a series, whatever they are: those that touch or overlap are one run.
fn mark_any(out: &mut [u8], lo: u64, s: Series, mark: Mark)
    requires { WindowFits lo out.old }
    ensures { MarkedSlots lo mark.octet (holds s) out.old out.new }
{
    if s.spacing <= u32::from(s.length) {
        mark_block(out, lo, s.start, s.run(), mark);
        return;
    }
    mark_each(out, lo, s, mark);
}

// Marks a series of blocks. Those that touch, or are of more than 32 slots, which no sound table has, go a way of their own; others go by the narrower of
// two widths that their length allows.
fn mark_series(out: &mut [u8], lo: u64, s: Series, mark: Mark)
    requires { WindowFits lo out.old }
    ensures { MarkedSlots lo mark.octet (holds s) out.old out.new }
{
    if s.start + s.run() < lo {
        return;
    }
    if (s.spacing <= u32::from(s.length)) | (32 < s.length) {
        mark_any(out, lo, s, mark);
        return;
    }
    if s.length <= 16 {
        mark_apart::<16>(out, lo, s, mark);
        return;
    }
    mark_apart::<32>(out, lo, s, mark);
}

// ---- the records

// Whether so many slots from a start on reach a window from lo up to an end, by one test: their end is ahead of lo by less than both are wide. Where
// it is behind, it is ahead by more than that. Apart, the first of two tests would often be guessed wrong.
fn reaches(lo: u64, end: u64, start: u64, width: u64) -> bool
    requires { (lo ≤ end) × (start ≤ 4398046511104) × (width ≤ 4398046511104) × (end + width ≤ lo + 18446744073709551615) }
    ensures { result ≡ (leb lo (start + width) && ltb start end) }
{
    series::ahead_of(start + width, lo) < end - lo + width
}

// Of so many superframes, M1 slots each, the first from a slot on, how many begin before an end: one, two and all are told apart.
fn begun_by(end: u64, from: u64, m1: u32, superframes: u32) -> u32
    requires { from ≤ 4398046511104 }
    ensures { (result ≤ superframes) × ((k : ℕ) → result ≤ k → k < superframes → end ≤ from + k * m1) }
{
    let second = from + u64::from(m1);
    let third = second + u64::from(m1);
    let begun = select_unpredictable(
        end <= second,
        1,
        select_unpredictable(end <= third, 2, superframes),
    );
    begun.min(superframes)
}

// How many are over before lo, the first at a slot: none, one and two are told apart.
fn over_by(lo: u64, over: u64, m1: u32) -> u32
    requires { over ≤ 4398046511104 }
    ensures { (k : ℕ) → k < result → over + k * m1 ≤ lo }
{
    u32::from(over <= lo) + u32::from(over + u64::from(m1) <= lo)
}

// Of a record's own superframes those that are left in a window: from the first that isn't over before it up to the first that begins behind it. All
// are asked or none, and `over` is where the first of them is over. Where there is but one, none is left out.
fn left_of(lo: u64, end: u64, from: u64, over: u64, m1: u32, superframes: u32, asked: u32) -> Bounds
    requires { (from ≤ over) × (over ≤ 4398046511104) × (asked ≤ superframes) }
    ensures { Between lo end from over m1 asked result }
{
    if superframes <= 1 {
        return Bounds {
            first: 0,
            behind: asked,
        };
    }
    let behind = begun_by(end, from, m1, asked);
    let first = over_by(lo, over, m1).min(behind.saturating_sub(1));
    Bounds { first, behind }
}

// Marks the blocks of a record's superframes that are left, in a window whose slots have 128 added too.
fn mark_left(out: &mut [u8], lo: u64, r: Rec, spacing: u32, left: Superframes)
    requires { WindowFits lo out.old × (0 < r.rate) × Few left }
    ensures { MarkedSlots lo (mark_of r.far) (held_left spacing r left left.all) out.old out.new }
{
    for k in left.first..left.all {
        let own = left.from + u64::from(k) * u64::from(left.m1);
        let s = Series {
            start: select_unpredictable(k < left.own, own, left.next),
            spacing,
            blocks: r.rate,
            length: r.length,
        };
        mark_series(out, lo, s, Mark::of(r.far));
    }
}

// Marks the blocks of a record's superframes, in a window whose slots have 128 added too. A record that can't reach it is left by one test of both
// its series; of others those superframes are left out that are over before it or begin behind it. There is no branch by which ones they are, as it
// would often be guessed wrong.
fn mark_superframes(out: &mut [u8], lo: u64, m1: u32, r: Rec, spacing: u32)
    requires { WindowFits lo out.old × (0 < r.rate) × (spacing ≡ m1 / r.rate) }
    ensures { MarkedSlots lo (mark_of r.far) (held_lifted m1 r) out.old out.new }
{
    let end = end_of(out, lo);
    let from = u64::from(r.first) + 128;
    let next = series::further_from(r, m1);
    let superframes = u32::from(r.superframes);
    let run = (u64::from(r.rate) - 1) * u64::from(spacing) + u64::from(r.length);
    let width = u64::from(r.superframes).saturating_sub(1) * u64::from(m1) + run;
    let own = select_unpredictable(reaches(lo, end, from, width), superframes, 0);
    let further = u32::from(reaches(lo, end, next, run) & (r.bo != 0));
    if own + further == 0 {
        return;
    }
    let b = left_of(lo, end, from, from + run, m1, superframes, own);
    let left = Superframes {
        from,
        m1,
        next,
        first: b.first,
        own: b.behind,
        all: b.behind + further,
    };
    mark_left(out, lo, r, spacing, left);
}

// M1 over a rate, the remainder dropped. A record of one block to a superframe is not divided for.
fn spacing_of(m1: u32, rate: u8) -> u32
    requires { 0 < rate }
    ensures { result ≡ m1 / rate }
{
    if rate == 1 {
        return m1;
    }
    m1 / u32::from(rate)
}

// Marks the slots that a record reserves: none where it has no block. 128 is added to all of them, as the further superframe may begin below 0.
fn mark_record(out: &mut [u8], first: u32, m1: u32, r: Rec)
    requires { 32 ≤ len out.old }
    ensures { MarkedSlots first (mark_of r.far) (reserves m1 r) out.old out.new }
{
    if r.rate < 1 {
        return;
    }
    mark_superframes(out, u64::from(first) + 128, m1, r, spacing_of(m1, r.rate));
}

// ---- the slot states of a window

// Marks the slots that a record reserves, if a part has it, unless it is far and no slot is free: it changes nothing then.
fn mark_needed(out: &mut [u8], first: u32, m1: u32, r: Rec, part: Part, full: bool)
    requires { (32 ≤ len out.old) × (full ≡ true → AtLeast (window_slots out.old) 1 out.old) }
    ensures { MarkedSlots first (mark_of r.far) (λ slot. takes part r && reserves m1 r slot) out.old out.new }
{
    if part.takes(r) {
        let far = r.far == 1;
        if full & far {
            return;
        }
        mark_record(out, first, m1, r);
    }
}

// Marks the slots that the records from i up to n reserve, those that a part has.
fn mark_some(
    out: &mut [u8],
    first: u32,
    m1: u32,
    memory: &[u8],
    i: usize,
    n: usize,
    part: Part,
    full: bool,
)
    requires { (32 ≤ len out.old) × (n ≤ capacity memory.now) × (full ≡ true → AtLeast (window_slots out.old) 1 out.old) }
    ensures { Raised (window_slots out.old) m1 (keep (takes part) (records_from i n memory.now)) first out.old out.new }
{
    for k in i..n {
        mark_needed(out, first, m1, record::load(memory, k), part, full);
    }
}

// The first place from one on, below n, whose octet is below a mark; n where there is none.
fn first_below(out: &[u8], from: usize, n: usize, mark: u8) -> usize
    requires { (from ≤ n) × (n ≤ len out.now) × AtLeast from mark out.now }
    ensures { (result ≤ n) × AtLeast result mark out.now }
{
    for i in from..n {
        if out[i] < mark {
            return i;
        }
    }
    n
}

// Marks a window's slots by a part of the records held, sixteen at a time. Once every slot is taken, no other record changes one.
fn mark_records(out: &mut [u8], s: State, memory: &[u8], first: u32, part: Part)
    requires { 32 ≤ len out.old }
    ensures { Raised (window_slots out.old) s.m1 (keep (takes part) (drop (begins_at part) (records (channel s memory.now)))) first out.old out.new }
{
    let n = out.len() - 32;
    let held = record::held_count(memory, s.count as usize);
    let mut taken = 0;
    let mut reserved = 0;
    for i in (part.begins_at()..held).step_by(16) {
        let next = (i + 16).min(held);
        mark_some(out, first, s.m1, memory, i, next, part, reserved == n);
        if next < held {
            taken = first_below(out, taken, n, 2);
            if taken == n {
                return;
            }
            reserved = first_below(out, taken.max(reserved), n, 1);
        }
    }
}

// Raises each octet of a window to the number of its slot's state by a part of the records: out is the window, which begins at the slot first, and
// behind it 32 octets of room, which a block that overhangs the window is marked into. They are 0 afterwards.
pub fn raise(s: State, memory: &[u8], part: Part, first: u32, out: &mut [u8])
    ensures { out.new ≡ zero_from (window_slots out.old) (raised s.m1 (part_of part (records (channel s memory.now))) first out.old) }
{
    if out.len() < 32 {
        octets::clear_from(out, 0);
        return;
    }
    let n = out.len() - 32;
    mark_records(out, s, memory, first, part);
    octets::clear_from(out, n);
}

// The slot states of a window: each of its octets gets the number of its slot's state, however late the slot, and the room behind it zeros.
pub fn states(s: State, memory: &[u8], first: u32, out: &mut [u8])
    ensures { out.new ≡ holds_only (len out.old) (window_states s.m1 (records (channel s memory.now)) first (window_slots out.old)) }
{
    octets::clear_from(out, 0);
    raise(s, memory, Part::All, first, out);
}

// What this crate claims over its promises.
pub fn claims()
    ensures { Claims }
{}
