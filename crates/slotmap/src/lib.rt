// The slot map beside the table: the table's calls with a lent map of the slots now to now+M1-1, which each of them tests and keeps.
#![tactic(auto)]

ghost use Rattle.std.specs.Prelude.{◌≡◌, true, ◌&&◌, [], ◌∷◌, ◌++◌, ◌+◌, ◌-◌, ◌≤◌, ◌<◌, leb, eqb, length, take, drop, unwrap_or};
ghost use Rattle.refusal.specs.Refusals.{Tells};
ghost use Rattle.octets.specs.Octets.{holds_only, same_octets};
ghost use Rattle.octets.specs.Refusals.{first_of};
ghost use Rattle.sound.specs.Sound.{records, sound};
ghost use Rattle.table.specs.Table.{clock, reserve, distance, wipe};
ghost use Rattle.table.specs.Memory.{channel, state_of, call_said};
ghost use Rattle.slots.specs.declared.Part.TheVariants.{From};
ghost use Rattle.slots.specs.Window.{raised, part_of};
ghost use Rattle.slotmap.specs.Map.{with_map, is_fresh, map_tests, MapGives, OpenMapGives, map_entry_says, map_entry_leaves};
ghost use Rattle.slotmap.specs.Steps.{call_of, stale_refusal, states_now, HoldsOthers, moved_by};
ghost use Rattle.slotmap.specs.Claims.{Claims};

use daylog::LoggedCall;
use distance::Distance;
use refusal::Refusal;
use slots::Part;
use table::{Answer, Request, State};

// The slots of the longest superframe.
const LONGEST: u32 = 15360;

// The octets of room that a window has behind its slots.
const ROOM: usize = 32;

// Sizes of windows: a short one is sooner wiped. For a superframe of 1,120 slots at most.
const NEAR: usize = 1152;

// For the usual superframe of 4,500 slots.
const USUAL: usize = 4608;

// For any superframe.
const FAR: usize = LONGEST as usize + ROOM;

// For any superframe, and a clock that moves it on by up to 224 slots.
const FAR_ON: usize = FAR + 224;

// For any superframe, and any clock that leaves some of it.
const TWICE_FAR: usize = FAR + LONGEST as usize;

// What changes of a station: whether it is far, or that it leaves. No closure in its place: the promises of what is done with it name the call that it is.
#[derive(Clone, Copy)]
enum Change {
    SetDistance(Distance, f64),
    Leave,
}

// Whether a map has as many octets as the superframe slots, of which there are not too many. Else no map is fresh beside a sound table.
fn is_sized(s: State, map: &[u8]) -> bool
    ensures { result ≡ (leb s.m1 15360 && eqb (length map.now) s.m1) }
{
    (s.m1 <= LONGEST) & (map.len() == s.m1 as usize)
}

// ---- the map tested, in a wiped window
// What a window holds and how long a map is are facts about lent octets, which a struct that holds them can't keep: so each contract says them.

// Works out the slot states from now on, and tells whether the map is the first of them.
fn is_same(s: State, memory: &[u8], map: &[u8], window: &mut [u8]) -> bool
    requires wiped { window.old ≡ holds_only (length window.old) [] }
    requires room { length map.now + 32 ≤ length window.old }
    ensures same { result ≡ same_octets map.now (states_now s memory.now (length map.now)) }
    ensures window { window.new ≡ holds_only (length window.old) (states_now s memory.now (length window.old - 32)) }
{
    slots::raise(s, memory, Part::All, s.now, window);
    let n = map.len();
    octets::same(map, &window[..n])
}

// The same in as much as it takes of a window of its own, of N octets.
fn is_same_sized<const N: usize>(s: State, memory: &[u8], map: &[u8]) -> bool
    requires room { length map.now + 32 ≤ N }
    requires most { N ≤ TWICE_FAR }
    ensures { result ≡ same_octets map.now (states_now s memory.now (length map.now)) }
{
    let mut window = [0u8; N];
    let n = map.len() + ROOM;
    is_same(s, memory, map, &mut window[..n])
}

// The same in the shortest window that does.
fn is_same_any(s: State, memory: &[u8], map: &[u8]) -> bool
    requires { length map.now + 32 ≤ FAR }
    ensures { result ≡ same_octets map.now (states_now s memory.now (length map.now)) }
{
    let n = map.len() + ROOM;
    if n <= NEAR {
        return is_same_sized::<NEAR>(s, memory, map);
    }
    if n <= USUAL {
        return is_same_sized::<USUAL>(s, memory, map);
    }
    is_same_sized::<FAR>(s, memory, map)
}

// Whether a map is fresh. None is of a superframe that is too long, which makes the table unsound.
fn is_fresh(s: State, memory: &[u8], map: &[u8]) -> bool
    ensures { result ≡ (leb s.m1 15360 && is_fresh (with_map s memory.now map.now)) }
{
    is_sized(s, map) && is_same_any(s, memory, map)
}

// What a call with a map is refused for before its own tests: 11, 25.
pub fn test(s: State, memory: &[u8], map: &[u8]) -> Result<(), Refusal>
    ensures { Tells result (first_of (map_tests (with_map s memory.now map.now))) tt }
{
    if !table::is_sound(s, memory) {
        return Err(Refusal::NotSound);
    }
    if !is_fresh(s, memory, map) {
        return Err(Refusal::Map);
    }
    Ok(())
}

// The refusal of a call whose map isn't fresh. The table is tested only here: on a fresh map the table's own call does.
fn stale(s: State, memory: &[u8]) -> Refusal
    ensures { result ≡ stale_refusal (sound (channel s memory.now)) }
{
    if table::is_sound(s, memory) {
        Refusal::Map
    } else {
        Refusal::NotSound
    }
}

// ---- a clock, in a wiped window of the map's slots and those that come to it

// By how many slots a clock moves the map on, where it leaves slots of the map, or those right behind it.
fn moved_by(s: State, slot: u32) -> Option<usize>
    ensures { result ≡ moved_by s slot }
{
    let behind = u64::from(s.now) + u64::from(s.m1);
    if (s.now <= slot) & (u64::from(slot) <= behind) {
        return Some((slot - s.now) as usize);
    }
    None
}

// Moves octets down by one place, and puts another last.
fn shift(octets: &mut [u8], last: u8)
    requires { 0 < length octets.old }
    ensures { octets.new ≡ drop 1 octets.old ++ (last ∷ []) }
{
    let n = octets.len() - 1;
    octets.copy_within(1.., 0);
    octets[n] = last;
}

// Moves a map on in a window that begins with it. By one slot, as most clocks do, it is moved in place: that is one memmove.
fn move_on(map: &mut [u8], window: &[u8], by: usize)
    requires some { 0 < length map.old }
    requires room { length map.old + by ≤ length window.now }
    requires begins { take (length map.old) window.now ≡ map.old }
    ensures { map.new ≡ take (length map.old) (drop by window.now) }
{
    if by == 1 {
        let n = map.len();
        shift(map, window[n]);
        return;
    }
    octets::copy(map, &window[by..]);
}

// A clock. Where none of the map's slots is left, the map is worked out anew.
fn clock_in(
    s: &mut State,
    memory: &mut [u8],
    map: &mut [u8],
    slot: u32,
    window: &mut [u8],
) -> Result<u32, Refusal>
    requires sized { length map.old ≡ s.old.m1 }
    requires wiped { window.old ≡ holds_only (length window.old) [] }
    requires room { length window.old ≡ s.old.m1 + unwrap_or (moved_by s.old slot) 0 + 32 }
    ensures { MapGives (with_map s.old memory.old map.old) (clock slot) (call_said result) s.new memory.new map.new }
{
    if !is_same(*s, memory, map, window) {
        return Err(stale(*s, memory));
    }
    let moved = moved_by(*s, slot);
    let Answer { said, state } = s.clock(memory, slot);
    *s = state;
    let dropped = said?;
    match moved {
        Some(by) => move_on(map, window, by),
        None => {
            slots::states(*s, memory, slot, window);
            octets::copy(map, window);
        }
    }
    Ok(dropped)
}

// A clock in as much as it takes of a window of its own, of N octets.
fn clock_sized<const N: usize>(
    s: &mut State,
    memory: &mut [u8],
    map: &mut [u8],
    slot: u32,
) -> Result<u32, Refusal>
    requires sized { length map.old ≡ s.old.m1 }
    requires room { s.old.m1 + unwrap_or (moved_by s.old slot) 0 + 32 ≤ N }
    requires most { N ≤ TWICE_FAR }
    ensures { MapGives (with_map s.old memory.old map.old) (clock slot) (call_said result) s.new memory.new map.new }
{
    let mut window = [0u8; N];
    let n = map.len() + moved_by(*s, slot).unwrap_or(0) + ROOM;
    clock_in(s, memory, map, slot, &mut window[..n])
}

// ---- a reserve, which is marked over the map

// Marks the records from a place on over a map of the slots from now on. There is no room behind it, so its last 32 slots are marked apart.
fn mark_over(s: State, memory: &[u8], k: u32, map: &mut [u8])
    requires room { 32 ≤ length map.old }
    requires most { s.now + length map.old ≤ 4294967295 }
    ensures { map.new ≡ raised s.m1 (part_of (From k) (records (channel s memory.now))) s.now map.old }
{
    let n = map.len() - ROOM;
    let mut tail = [0u8; 2 * ROOM];
    octets::copy(&mut tail, &map[n..]);
    // `as`: no map has more than 15,360 slots
    slots::raise(s, memory, Part::From(k), s.now + n as u32, &mut tail);
    slots::raise(s, memory, Part::From(k), s.now, map);
    octets::copy(&mut map[n..], &tail);
}

// ---- a distance and a wipe, in a window of the others' slot states: so a station's records are not there to be taken off

// Marks the station's own over the others', and tells whether the map is the same.
fn is_same_over(s: State, memory: &[u8], map: &[u8], station: u32, window: &mut [u8]) -> bool
    requires { HoldsOthers s station memory.now (length map.now) window.old }
    ensures { result ≡ same_octets map.now (states_now s memory.now (length map.now)) }
{
    slots::raise(s, memory, Part::Own(station), s.now, window);
    let n = map.len();
    octets::same(map, &window[..n])
}

// A distance on a fresh map: the station's records are marked anew over the others'.
fn distance_over(
    s: &mut State,
    memory: &mut [u8],
    map: &mut [u8],
    station: u32,
    d: Distance,
    limit: f64,
    window: &mut [u8],
) -> Result<u32, Refusal>
    requires fresh { is_fresh (with_map s.old memory.old map.old) ≡ true }
    requires others { HoldsOthers s.old station memory.old (length map.old) window.old }
    ensures { MapGives (with_map s.old memory.old map.old) (distance station d limit) (call_said result) s.new memory.new map.new }
{
    let now = s.now;
    let Answer { said, state } = s.distance(memory, station, d, limit);
    *s = state;
    let held = said?;
    slots::raise(*s, memory, Part::Own(station), now, window);
    octets::copy(map, window);
    Ok(held)
}

// A wipe on a fresh map: the others' states are left.
fn wipe_over(
    s: &mut State,
    memory: &mut [u8],
    map: &mut [u8],
    station: u32,
    window: &[u8],
) -> Result<u32, Refusal>
    requires fresh { is_fresh (with_map s.old memory.old map.old) ≡ true }
    requires others { HoldsOthers s.old station memory.old (length map.old) window.now }
    ensures { MapGives (with_map s.old memory.old map.old) (wipe station) (call_said result) s.new memory.new map.new }
{
    let Answer { said, state } = s.wipe(memory, station);
    *s = state;
    let removed = said?;
    octets::copy(map, window);
    Ok(removed)
}

// A call of a station's in two windows of the others' states.
fn change_in(
    s: &mut State,
    memory: &mut [u8],
    map: &mut [u8],
    station: u32,
    c: Change,
    window: &mut [u8],
    all: &mut [u8],
) -> Result<u32, Refusal>
    requires sized { length map.old ≡ s.old.m1 }
    requires others { HoldsOthers s.old station memory.old (length map.old) window.old }
    requires same { all.old ≡ window.old }
    ensures { MapGives (with_map s.old memory.old map.old) (call_of station c) (call_said result) s.new memory.new map.new }
{
    if !is_same_over(*s, memory, map, station, all) {
        return Err(stale(*s, memory));
    }
    match c {
        Change::SetDistance(d, limit) => {
            distance_over(s, memory, map, station, d, limit, window)
        }
        Change::Leave => wipe_over(s, memory, map, station, window),
    }
}

// A call of a station's in as much as it takes of two windows of its own, of N octets.
fn change_sized<const N: usize>(
    s: &mut State,
    memory: &mut [u8],
    map: &mut [u8],
    station: u32,
    c: Change,
) -> Result<u32, Refusal>
    requires sized { length map.old ≡ s.old.m1 }
    requires room { s.old.m1 + 32 ≤ N }
    requires most { N ≤ TWICE_FAR }
    ensures { MapGives (with_map s.old memory.old map.old) (call_of station c) (call_said result) s.new memory.new map.new }
{
    let mut window = [0u8; N];
    let n = map.len() + ROOM;
    slots::raise(*s, memory, Part::Others(station), s.now, &mut window[..n]);
    let mut all = window;
    change_in(s, memory, map, station, c, &mut window[..n], &mut all[..n])
}

// A call of a station's in the shortest windows that do.
fn change_any(
    s: &mut State,
    memory: &mut [u8],
    map: &mut [u8],
    station: u32,
    c: Change,
) -> Result<u32, Refusal>
    ensures { MapGives (with_map s.old memory.old map.old) (call_of station c) (call_said result) s.new memory.new map.new }
{
    if !is_sized(*s, map) {
        return Err(stale(*s, memory));
    }
    let n = map.len() + ROOM;
    if n <= NEAR {
        return change_sized::<NEAR>(s, memory, map, station, c);
    }
    if n <= USUAL {
        return change_sized::<USUAL>(s, memory, map, station, c);
    }
    change_sized::<FAR>(s, memory, map, station, c)
}

// ---- the calls

// Opens a table of M1 slots in lent memory, with a map of M1 octets. Refused, in this order: 10, 1, 25; then no table is open.
pub fn open(s: &mut State, memory: &mut [u8], map: &mut [u8], m1: u32) -> Result<(), Refusal>
    ensures { OpenMapGives m1 memory.old map.old result s.new memory.new map.new }
{
    if map.len() == m1 as usize {
        let Answer { said, state } = State::open(memory, m1);
        *s = state;
        said?;
        map.fill(0);
        return Ok(());
    }
    *s = State::default();
    if !sound::m1_fits(m1) {
        return Err(Refusal::Figure);
    }
    if !sound::size_fits(memory) {
        return Err(Refusal::Size);
    }
    Err(Refusal::Map)
}

// Sets now and drops the records that are over; reports how many. Refused, in this order: 11, 25, 12, 13. In the shortest window that does.
pub fn clock(s: &mut State, memory: &mut [u8], map: &mut [u8], slot: u32) -> Result<u32, Refusal>
    ensures { MapGives (with_map s.old memory.old map.old) (clock slot) (call_said result) s.new memory.new map.new }
{
    // A map of another size is not fresh: it takes no window to tell.
    if !is_sized(*s, map) {
        return Err(stale(*s, memory));
    }
    let n = map.len() + moved_by(*s, slot).unwrap_or(0) + ROOM;
    if n <= NEAR {
        return clock_sized::<NEAR>(s, memory, map, slot);
    }
    if n <= USUAL {
        return clock_sized::<USUAL>(s, memory, map, slot);
    }
    if n <= FAR_ON {
        return clock_sized::<FAR_ON>(s, memory, map, slot);
    }
    clock_sized::<TWICE_FAR>(s, memory, map, slot)
}

// Adds one record at the end. Refused, in this order: 11, 25, 8, 14, 15, 9, 5, 6, 24, 18, 16, 17.
pub fn reserve(s: &mut State, memory: &mut [u8], map: &mut [u8], q: Request) -> Result<u32, Refusal>
    ensures { MapGives (with_map s.old memory.old map.old) (reserve q) (call_said result) s.new memory.new map.new }
{
    if !is_fresh(*s, memory, map) {
        return Err(stale(*s, memory));
    }
    let count = s.count;
    let Answer { said, state } = s.reserve(memory, q);
    *s = state;
    let reported = said?;
    mark_over(*s, memory, count, map);
    Ok(reported)
}

// Rewrites far in all the station's records; reports how many it has. Refused, in this order: 11, 25, 8, 18.
pub fn distance(
    s: &mut State,
    memory: &mut [u8],
    map: &mut [u8],
    station: u32,
    d: Distance,
    limit: f64,
) -> Result<u32, Refusal>
    ensures { MapGives (with_map s.old memory.old map.old) (distance station d limit) (call_said result) s.new memory.new map.new }
{
    change_any(s, memory, map, station, Change::SetDistance(d, limit))
}

// Removes the station's records; reports how many. Refused, in this order: 11, 25, 8.
pub fn wipe(s: &mut State, memory: &mut [u8], map: &mut [u8], station: u32) -> Result<u32, Refusal>
    ensures { MapGives (with_map s.old memory.old map.old) (wipe station) (call_said result) s.new memory.new map.new }
{
    change_any(s, memory, map, station, Change::Leave)
}

// Applies a log record. Refused 23 where it asks for no call, before anything that its call is refused for.
#[tactic(auto, unfolding(crate::specs::Map::map_entry_says, crate::specs::Map::map_entry_leaves))]
pub fn step(s: &mut State, memory: &mut [u8], map: &mut [u8], octets: &[u8]) -> Result<u32, Refusal>
    ensures answer { call_said result ≡ map_entry_says (with_map s.old memory.old map.old) octets.now }
    ensures state { s.new ≡ state_of (map_entry_leaves (with_map s.old memory.old map.old) octets.now).channel }
    ensures memory { memory.new ≡ (map_entry_leaves (with_map s.old memory.old map.old) octets.now).channel.memory }
    ensures map { map.new ≡ (map_entry_leaves (with_map s.old memory.old map.old) octets.now).map }
{
    match daylog::read(octets).ok_or(Refusal::Entry)? {
        LoggedCall::Clock(slot) => clock(s, memory, map, slot),
        LoggedCall::Reserve(q) => reserve(s, memory, map, q),
        LoggedCall::SetDistance(station, d, limit) => distance(s, memory, map, station, d, limit),
        LoggedCall::Wipe(station) => wipe(s, memory, map, station),
    }
}

// What this crate claims over its promises.
pub fn claims()
    ensures { Claims }
{}
