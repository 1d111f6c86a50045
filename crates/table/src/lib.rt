// The reservation table in lent memory: the calls.
#![tactic(auto)]

ghost use Rattle.std.specs.Prelude.{◌≡◌, true, not, Bool, Err, ℕ, ◌+◌, ◌-◌, ◌*◌, ◌≤◌, ◌<◌, ltb, length, get_or, set, take};
ghost use Rattle.refusal.specs.Refusals.{Tells};
ghost use Rattle.octets.specs.Lists.{keep, has, every};
ghost use Rattle.octets.specs.Refusals.{first_of};
ghost use Rattle.octets.specs.Complement.{lifted};
ghost use Rattle.record.specs.declared.Rec.{Rec};
ghost use Rattle.record.specs.Record.{all_records, blank, capacity, rest, packed};
ghost use Rattle.sound.specs.Sound.{records, sound, lasts};
ghost use Rattle.table.specs.Table.{clock, reserve, distance, wipe, same, owned_by, set_far, request_tests, held_tests};
ghost use Rattle.table.specs.Memory.{channel, table_of, call_said, Gives, OpenGives};
ghost use Rattle.table.specs.Steps.{sieved, mapped, swept, added, added_memory};

use distance::Distance;
use record::{Rec, Zeros};
use refusal::Refusal;

// What stands beside the lent memory: all 0 where no table is open.
#[derive(Clone, Copy, Debug, Default, PartialEq, Eq)]
pub struct State {
    pub m1: u32,
    pub now: u32,
    pub count: u32,
}

// What a call gives: what it says, and the state from here on.
#[derive(Clone, Copy, Debug, PartialEq, Eq)]
pub struct Answer<T> {
    pub said: Result<T, Refusal>,
    pub state: State,
}

// What reserve is given.
#[derive(Clone, Copy)]
pub struct Request {
    pub station: u32,
    pub rate: u32,
    pub superframes: u32,
    pub bs: u32,
    pub length: u32,
    pub bo: i32,
    pub distance: Distance,
    pub limit: f64,
}

// ---- soundness

// Whether a table is sound; every call that takes one asks this first.
pub fn is_sound(s: State, memory: &[u8]) -> bool
    ensures { result ≡ sound (channel s memory.now) }
{
    sound::is_sound(s.m1, s.now, s.count, memory)
}

// ---- which records stay

trait Rule: Copy {
    ghost stays: { Self → Rec → Bool };

    fn stays(self, r: Rec) -> bool
        ensures { result ≡ stays self r };
}

// Those that are not over at a slot, in a table of m1 slots.
#[derive(Clone, Copy)]
struct NotOver {
    m1: u32,
    slot: u32,
}

impl Rule for NotOver {
    ghost stays = { λ s r. lasts s.m1 s.slot r };

    fn stays(self, r: Rec) -> bool {
        u64::from(self.slot) <= series::last_slot(r, self.m1)
    }
}

// Those of another station.
#[derive(Clone, Copy)]
struct OtherThan {
    station: u32,
}

impl Rule for OtherThan {
    ghost stays = { λ s r. not (owned_by s.station r) };

    fn stays(self, r: Rec) -> bool {
        r.station != self.station
    }
}

// ---- steps of the calls

// Moves record i down to place k, whether it stays or not: a branch by that would often be guessed wrong. The next k.
fn sift<R: Rule>(memory: &mut [u8], i: usize, k: usize, rule: R) -> usize
    requires { (k ≤ i) × (i < capacity memory.old) }
    ensures next { result ≡ sieved (R.stays rule) (all_records memory.old) i (k + 1) k }
    ensures left { all_records memory.new ≡ set (all_records memory.old) k (get_or (all_records memory.old) i blank) }
    ensures behind { (n : ℕ) → k < n → rest n memory.new ≡ rest n memory.old }
{
    let r = record::load(memory, i);
    record::copy(memory, i, k);
    if rule.stays(r) {
        return k + 1;
    }
    k
}

// The first of n records that goes, by its place; n where none does. Up to there nothing has to be moved.
fn first_gone<R: Rule>(memory: &[u8], n: usize, rule: R) -> usize
    requires { n ≤ capacity memory.now }
    ensures { (result ≤ n) × (every (R.stays rule) (take result (all_records memory.now)) ≡ true) }
{
    for i in 0..n {
        if !rule.stays(record::load(memory, i)) {
            return i;
        }
    }
    n
}

// Moves those of the first n records that stay to the front, in order. How many they are.
fn compact<R: Rule>(memory: &mut [u8], n: usize, rule: R) -> usize
    ensures kept { result ≡ length (keep (R.stays rule) (take n (all_records memory.old))) }
    ensures front { take result (all_records memory.new) ≡ keep (R.stays rule) (take n (all_records memory.old)) }
    ensures behind { rest n memory.new ≡ rest n memory.old }
{
    let held = record::held_count(memory, n);
    let gone = first_gone(memory, held, rule);
    let mut k = gone;
    for i in gone..held {
        k = sift(memory, i, k, rule);
    }
    k
}

// The station is asked first: it tells most records apart.
fn is_same(x: Rec, r: Rec) -> bool
    ensures { result ≡ same x r }
{
    if x.station == r.station {
        let first = x.first == r.first;
        let rate = x.rate == r.rate;
        let superframes = x.superframes == r.superframes;
        let length = x.length == r.length;
        let bo = x.bo == r.bo;
        return first & rate & superframes & length & bo;
    }
    false
}

// Whether one of the first n records is the same reservation.
fn has_same(memory: &[u8], n: usize, x: Rec) -> bool
    ensures { result ≡ has (same x) (take n (all_records memory.now)) }
{
    for i in 0..record::held_count(memory, n) {
        if is_same(x, record::load(memory, i)) {
            return true;
        }
    }
    false
}

// Whether a reservation's further series would begin before now. Where it has none, the sum is 128 at least.
fn begins_early(bo: u8, bs: u32, superframes: u32, m1: u32) -> bool
    requires { (bs ≤ 255) × (superframes ≤ 3) }
    ensures { result ≡ ltb (bs + superframes * m1 + lifted bo) 128 }
{
    let from = u64::from(bs)
        + u64::from(superframes) * u64::from(m1)
        + u64::from(octets::lifted(bo));
    from < 128
}

// What a request is refused for by its numbers.
fn judge_request(s: State, q: Request) -> Result<(), Refusal>
    ensures { Tells result (first_of (request_tests s.m1 s.now q)) tt }
{
    let Request {
        rate,
        length,
        bs,
        bo,
        ..
    } = q;
    if 134217728 <= q.station {
        return Err(Refusal::Address);
    }
    if (rate < 1) | (60 < rate) {
        return Err(Refusal::Rate);
    }
    if q.superframes == 0 {
        return Err(Refusal::NoSuperframes);
    }
    if (3 < q.superframes) | ((length < 1) | (32 < length)) {
        return Err(Refusal::Field);
    }
    if (bs < 2) | (255 < bs) {
        return Err(Refusal::Bs);
    }
    if (bo < -127) | (127 < bo) {
        return Err(Refusal::Bo);
    }
    if begins_early(octets::twos(bo), bs, q.superframes, s.m1) {
        return Err(Refusal::Early);
    }
    if !distance::limit_fits(q.limit) {
        return Err(Refusal::Limit);
    }
    Ok(())
}

// Rewrites far in record i, where it is the station's. The next k.
fn mark(memory: &mut [u8], i: usize, k: usize, station: u32, far: u8) -> usize
    requires { (k ≤ i) × (i < capacity memory.old) }
    ensures next { result ≡ sieved (owned_by station) (all_records memory.old) i (k + 1) k }
    ensures left { all_records memory.new ≡ set (all_records memory.old) i (set_far station far (get_or (all_records memory.old) i blank)) }
{
    let r = record::load(memory, i);
    if r.station == station {
        record::store(memory, i, Rec { far, ..r });
        return k + 1;
    }
    k
}

// The same for the first n records. How many are the station's.
fn mark_all(memory: &mut [u8], n: usize, station: u32, far: u8) -> usize
    requires { n ≤ capacity memory.old }
    ensures number { result ≡ length (keep (owned_by station) (take n (all_records memory.old))) }
    ensures left { all_records memory.new ≡ mapped (set_far station far) n (all_records memory.old) }
{
    let mut k = 0;
    for i in 0..record::held_count(memory, n) {
        k = mark(memory, i, k, station, far);
    }
    k
}

// ---- the calls

// A refused call: it hands back a state as it is given.
fn refused<T>(state: State, refusal: Refusal) -> Answer<T>
    ensures { result ≡ record { said = Err refusal; state = state } }
{
    Answer {
        said: Err(refusal),
        state,
    }
}

impl State {
    // Keeps the records that stay, closes the gaps and zeros the tail of a sound table, at a time: clock and wipe. How many went.
    // Behind the records that it had, the octets of a sound table are 0 already. Apart, so that its loops have the registers to themselves.
    #[inline(never)]
    fn sweep<R: Rule>(&mut self, memory: &mut [u8], time: u32, rule: R) -> u32
        requires { sound (channel self.old memory.old) ≡ true }
        ensures number { result ≡ self.old.count - self.new.count }
        ensures state { self.new ≡ swept (channel self.old memory.old) time (R.stays rule) }
        ensures memory { memory.new ≡ packed (capacity memory.old) (keep (R.stays rule) (records (channel self.old memory.old))) }
    {
        let n = self.count as usize;
        let kept = compact(memory, n, rule);
        record::clear_between(memory, kept, n);
        self.now = time;
        // `as`: no table has more than 2048 records
        self.count = kept as u32;
        (n - kept) as u32
    }

    // Adds a record at the end of a sound table, unless it is held already or there is no room.
    fn add(&mut self, memory: &mut [u8], x: Rec) -> Result<(), Refusal>
        requires { sound (channel self.old memory.old) ≡ true }
        ensures told { Tells result (first_of (held_tests (table_of (channel self.old memory.old)) x)) tt }
        ensures state { self.new ≡ added (channel self.old memory.old) x }
        ensures memory { memory.new ≡ added_memory (channel self.old memory.old) x }
    {
        let n = self.count as usize;
        if has_same(memory, n, x) {
            return Err(Refusal::Held);
        }
        let all = record::capacity(memory);
        if n == all {
            return Err(Refusal::Full);
        }
        record::store(memory, n, x);
        self.count += 1;
        Ok(())
    }

    // Opens a table of M1 slots in lent memory. Refused, in this order: 10, 1; then no table is open.
    pub fn open(memory: &mut [u8], m1: u32) -> Answer<()>
        ensures { OpenGives m1 memory.old result.said result.state memory.new }
    {
        let state = State::default();
        if !sound::m1_fits(m1) {
            return refused(state, Refusal::Figure);
        }
        if !sound::size_fits(memory) {
            return refused(state, Refusal::Size);
        }
        record::clear(memory, 0);
        Answer {
            said: Ok(()),
            state: State { m1, ..state },
        }
    }

    // Sets now and drops the records that are over; reports how many. Refused, in this order: 11, 12, 13.
    pub fn clock(self, memory: &mut [u8], slot: u32) -> Answer<u32>
        ensures { Gives (channel self memory.old) (clock slot) (call_said result.said) result.state memory.new }
    {
        if !is_sound(self, memory) {
            return refused(self, Refusal::NotSound);
        }
        if slot < self.now {
            return refused(self, Refusal::Behind);
        }
        if 1000000000 < slot {
            return refused(self, Refusal::Late);
        }
        let m1 = self.m1;
        let mut state = self;
        let said = Ok(state.sweep(memory, slot, NotOver { m1, slot }));
        Answer { said, state }
    }

    // Adds one record at the end. Refused, in this order: 11, 8, 14, 15, 9, 5, 6, 24, 18, 16, 17.
    pub fn reserve(self, memory: &mut [u8], q: Request) -> Answer<u32>
        ensures { Gives (channel self memory.old) (reserve q) (call_said result.said) result.state memory.new }
    {
        if !is_sound(self, memory) {
            return refused(self, Refusal::NotSound);
        }
        if let Err(refusal) = judge_request(self, q) {
            return refused(self, refusal);
        }
        let x = Rec {
            station: q.station,
            first: self.now + q.bs,
            rate: q.rate as u8,
            superframes: q.superframes as u8,
            length: q.length as u8,
            far: u8::from(distance::far(q.distance, q.limit)),
            bo: octets::twos(q.bo),
            zeros: Zeros { a: 0, b: 0, c: 0 },
        };
        let mut state = self;
        let said = state.add(memory, x).and(Ok(0));
        Answer { said, state }
    }

    // Rewrites far in all the station's records; reports how many it has. Refused, in this order: 11, 8, 18.
    pub fn distance(self, memory: &mut [u8], station: u32, d: Distance, limit: f64) -> Answer<u32>
        ensures { Gives (channel self memory.old) (distance station d limit) (call_said result.said) result.state memory.new }
    {
        if !is_sound(self, memory) {
            return refused(self, Refusal::NotSound);
        }
        if 134217728 <= station {
            return refused(self, Refusal::Address);
        }
        if !distance::limit_fits(limit) {
            return refused(self, Refusal::Limit);
        }
        let far = u8::from(distance::far(d, limit));
        let k = mark_all(memory, self.count as usize, station, far);
        // `as`: no more than the count
        let said = Ok(k as u32);
        Answer { said, state: self }
    }

    // Removes the station's records; reports how many. Refused, in this order: 11, 8.
    pub fn wipe(self, memory: &mut [u8], station: u32) -> Answer<u32>
        ensures { Gives (channel self memory.old) (wipe station) (call_said result.said) result.state memory.new }
    {
        if !is_sound(self, memory) {
            return refused(self, Refusal::NotSound);
        }
        if 134217728 <= station {
            return refused(self, Refusal::Address);
        }
        let now = self.now;
        let mut state = self;
        let said = Ok(state.sweep(memory, now, OtherThan { station }));
        Answer { said, state }
    }
}
