// The search for blocks of slots that may be used, along the map or over the promise of a window's slot states; and pick.
#![tactic(auto)]

ghost use Rattle.std.specs.Prelude.{ℕ, ◌≡◌, true, List, [], ◌∷◌, ◌++◌, ◌+◌, ◌-◌, ◌≤◌, ◌<◌, leb, length, length as len, take};
ghost use Rattle.std.specs.Result.{result_map_both};
ghost use Rattle.refusal.specs.Refusals.{Tells};
ghost use Rattle.octets.specs.Lists.{from};
ghost use Rattle.octets.specs.Octets.{holds_only};
ghost use Rattle.octets.specs.Refusals.{first_of};
ghost use Rattle.table.specs.Memory.{channel, call_said};
ghost use Rattle.slotmap.specs.Map.{with_map, is_fresh};
ghost use Rattle.search.specs.Search.{states_in, query_tests, listed, list_after, searched, picked};
ghost use Rattle.search.specs.Steps.{WellAsked, answered, octet_below, streak, bound_by, BehindAre};
ghost use Rattle.search.specs.Claims.{Claims};

use refusal::Refusal;
use slots::Part;
use std::marker::Model;
use table::State;

// What a search is given: where a block may start, its length, and how many starts are wanted.
#[derive(Clone, Copy)]
pub struct Query {
    pub lo: u32,
    pub hi: u32,
    pub length: u32,
    pub wanted: u32,
}

// A judged query: its numbers are in range.
#[derive(Clone, Copy)]
struct Asked {
    q: Query,
    ghost well_asked: { WellAsked q },
}

// What a query is refused for before a slot is looked at, or the query, judged.
fn ask(s: State, q: Query, places: usize) -> Result<Asked, Refusal>
    ensures { Tells (result_map_both (λ a. a.q) (λ e. e) result) (first_of (query_tests s.m1 s.now q places)) q }
{
    if q.lo < s.now || q.hi < q.lo || 1000000000 < q.hi {
        return Err(Refusal::SearchRange);
    }
    if s.m1 <= q.hi - q.lo {
        return Err(Refusal::SearchRange);
    }
    if q.length < 1 || 32 < q.length {
        return Err(Refusal::Field);
    }
    if q.wanted < 1 || 16 < q.wanted {
        return Err(Refusal::Wanted);
    }
    if places < q.wanted as usize {
        return Err(Refusal::Size);
    }
    Ok(Asked { q })
}

// ---- the octets of slot states: 0 free, 1 reusable, else taken

// How many of the n octets from a place on there are up to the last that is not below x, 0 where all are: 1 tells the free slots, 2 those
// that are not taken.
fn up_to_last(states: &[u8], at: usize, n: usize, x: u8) -> usize
    requires { at + n ≤ length states.now }
    ensures { result ≡ n - streak (octet_below states.now x) at n }
{
    // counted down beside the range: of a range turned round the compiler makes two counts
    let mut k = n;
    for _ in 0..n {
        if x <= states[at + k - 1] {
            return k;
        }
        k -= 1;
    }
    0
}

// What a block must be below to matter: 2, none taken; or 1, all free, once enough level 1 starts are kept.
fn bound(kept: usize, most: usize) -> u8
    ensures { result ≡ bound_by kept most }
{
    if kept == most { 1 } else { 2 }
}

// ---- the starts found

// Starts one after the other, no more than a query may want.
#[derive(Drop)]
struct Starts {
    places: [u32; 16],
    number: usize,
}

impl Model for Starts {
    ghost Value = { List ℕ };

    ghost view = { λ s. take s.number s.places };

    ghost invariant = { λ s. s.number ≤ 16 };
}

impl Starts {
    fn new() -> Self
        ensures { result ≡ [] }
    {
        Starts {
            places: [0; 16],
            number: 0,
        }
    }

    fn len(&self) -> usize
        ensures { result ≡ length self.now }
    {
        self.number
    }

    fn as_slice(&self) -> &[u32]
        ensures { result.now ≡ self.now }
    {
        &self.places[..self.number]
    }

    fn push(&mut self, start: u32)
        requires { length self.old < 16 }
        ensures { self.new ≡ self.old ++ start ∷ [] }
    {
        self.places[self.number] = start;
        self.number += 1;
    }

    // Puts n starts behind them, one after the other. The number is counted on once: counted at each start, it would wait for each to be stored.
    fn push_from(&mut self, start: u32, n: u32)
        requires room { length self.old + n ≤ 16 }
        requires most { start + n ≤ 4294967295 }
        ensures { self.new ≡ self.old ++ from start n }
    {
        let number = self.number;
        for k in 0..n {
            self.places[number + k as usize] = start + k;
        }
        self.number = number + n as usize;
    }
}

// Finds a start behind those found, and the next ones as long as the slot behind the block has a state, up to `wanted` in all; how many.
// With a free slot behind it a free block is followed by a free one, and with a reusable slot behind it one of level 1 by one of level 1.
fn find_while(states: &[u8], asked: Asked, found: &mut Starts, start: u32, state: u8) -> u32
    requires in_range { (asked.q.lo ≤ start) × (start ≤ asked.q.hi) }
    requires in_states { asked.q.hi + asked.q.length ≤ asked.q.lo + length states.now }
    requires not_enough { length found.old < asked.q.wanted }
    ensures some { 0 < result }
    ensures in_range { start + result ≤ asked.q.hi + 1 }
    ensures behind { BehindAre states.now asked.q state start (start + result) }
    ensures found { found.new ≡ found.old ++ from start result }
    ensures at_most_wanted { length found.new ≤ asked.q.wanted }
{
    let q = asked.q;
    let length = q.length as usize;
    // `as`: sixteen at most
    let room = q.wanted - found.len() as u32;
    let mut n = 0;
    // a `while`: the number found, the last start or a state ends it
    while n < room {
        let s = start + n;
        n += 1;
        if s == q.hi || states[(s - q.lo) as usize + length] != state {
            break;
        }
    }
    found.push_from(start, n);
    n
}

// Puts starts behind those found, up to `most` in all.
fn append(found: &mut Starts, later: &[u32], most: usize)
    requires not_full { length found.old ≤ most }
    requires has_room { most ≤ 16 }
    ensures { found.new ≡ take most (found.old ++ later.now) }
{
    for start in later {
        if found.len() == most {
            return;
        }
        found.push(*start);
    }
}

// Goes along the states of a query's slots, from lo on: the level 0 starts, and the level 1 starts to put behind them. A slot that rules
// a block out rules out every start whose block holds it, so many slots are never looked at.
fn scan(states: &[u8], asked: Asked) -> Starts
    requires { asked.q.hi + asked.q.length ≤ asked.q.lo + length states.now }
    ensures { result ≡ listed (states_in states.now asked.q.lo) asked.q }
{
    let q = asked.q;
    let length = q.length as usize;
    let most = q.wanted as usize;
    let mut free = Starts::new();
    let mut untaken = Starts::new();
    let mut start = q.lo;
    // a `while`: each turn goes on by as many starts as it has decided
    while start <= q.hi {
        let at = (start - q.lo) as usize;
        let reserved = up_to_last(states, at, length, 1);
        if reserved == 0 {
            start += find_while(states, asked, &mut free, start, 0);
            if free.len() == most {
                return free;
            }
        } else {
            let ruled_out = up_to_last(states, at, reserved, bound(untaken.len(), most));
            if ruled_out == 0 {
                start += find_while(states, asked, &mut untaken, start, 1);
            } else {
                // `as`: no more than a block's slots
                start += ruled_out as u32;
            }
        }
    }
    append(&mut free, untaken.as_slice(), most);
    free
}

// For a query about a thousand slots at most: a short window is sooner wiped.
const NEAR: usize = 1152;

// For any query: at most 15,360 starts, 31 slots behind the last, and 32 octets more.
const FAR: usize = 15423;

// The same by the records held, in a window of N octets that has room for the slots asked about and 32 octets more.
fn look<const N: usize>(s: State, memory: &[u8], asked: Asked) -> Starts
    requires in_window { asked.q.hi + asked.q.length + 32 ≤ asked.q.lo + N }
    requires small { N ≤ 15423 }
    ensures { result ≡ answered (channel s memory.now) asked.q }
{
    let q = asked.q;
    let mut window = [0u8; N];
    let n = (q.hi - q.lo + q.length) as usize + 32;
    slots::raise(s, memory, Part::All, q.lo, &mut window[..n]);
    scan(&window, asked)
}

// Whether a query's blocks lie wholly in the map's slots.
fn is_inside(s: State, q: Query) -> bool
    ensures { result ≡ leb (q.hi + q.length) (s.now + s.m1) }
{
    u64::from(q.hi) + u64::from(q.length) <= u64::from(s.now) + u64::from(s.m1)
}

// The same along the map where the blocks lie wholly in it, else along a window.
fn look_in(s: State, memory: &[u8], map: &[u8], asked: Asked) -> Starts
    requires from_now { s.now ≤ asked.q.lo }
    requires in_superframe { asked.q.hi - asked.q.lo < s.m1 }
    requires not_too_long { s.m1 ≤ 15360 }
    requires fresh { is_fresh (with_map s memory.now map.now) ≡ true }
    ensures { result ≡ answered (channel s memory.now) asked.q }
{
    let q = asked.q;
    if is_inside(s, q) {
        let at = (q.lo - s.now) as usize;
        return scan(&map[at..], asked);
    }
    if (q.hi - q.lo + q.length) as usize + 32 <= NEAR {
        return look::<NEAR>(s, memory, asked);
    }
    look::<FAR>(s, memory, asked)
}

// Lists the first starts in lo..hi of a block that is free, then of one that has no taken slot, into a list that is wiped at each
// call. How many are found. Refused, in this order: 11, 25, 19, 9, 20, 1, 21.
pub fn search(
    s: State,
    memory: &[u8],
    map: &[u8],
    q: Query,
    list: &mut [u32],
) -> Result<u32, Refusal>
    ensures answer { call_said result ≡ searched (with_map s memory.now map.now) q (length list.old) }
    ensures list { list.new ≡ list_after (with_map s memory.now map.now) q (length list.old) }
{
    list.fill(0);
    slotmap::test(s, memory, map)?;
    let asked = ask(s, q, list.len())?;
    let found = look_in(s, memory, map, asked);
    let number = found.len();
    if number == 0 {
        return Err(Refusal::NoStart);
    }
    list[..number].copy_from_slice(found.as_slice());
    // `as`: sixteen at most
    Ok(number as u32)
}

// Which of the n found to use, by a number r. Refused 20 for n outside 1..16.
#[tactic(auto, unfolding(crate::specs::Search::picked, octets::specs::Refusals::answer))]
pub fn pick(n: u32, r: u32) -> Result<u32, Refusal>
    ensures { Tells result (picked n r).refusal (picked n r).place }
{
    if n < 1 || 16 < n {
        return Err(Refusal::Wanted);
    }
    Ok(r % n)
}

// What this crate claims over its promises.
pub fn claims()
    ensures { Claims }
{}
