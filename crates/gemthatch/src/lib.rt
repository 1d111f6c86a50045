// What a C host calls, and nothing else: each call hands its numbers and octets to the crate that does the work, and its answer back as
// one number. include/gemthatch.h is the manual. The state's now is called `time` here, since contracts use that word.
#![tactic(auto)]

ghost use Rattle.std.specs.Prelude.{◌≡◌, [], ◌*◌, ◌≤◌, None, length, length as len};
ghost use Rattle.refusal.specs.Refusals.{number_of};
ghost use Rattle.octets.specs.Octets.{holds_only};
ghost use Rattle.octets.specs.Refusals.{first_of};
ghost use Rattle.codec.specs.NineOctets.{reading, writing};
ghost use Rattle.codec.specs.Rates.{rate_lookup};
ghost use Rattle.codec.specs.Parameters.{parameter_tests};
ghost use Rattle.tally.specs.Calls.{counted};
ghost use Rattle.distance.specs.Distances.{distance_of};
ghost use Rattle.table.specs.Table.{clock, reserve, distance, wipe};
ghost use Rattle.table.specs.Memory.{call_said};
ghost use Rattle.slotmap.specs.Map.{with_map, map_leaves, open_map_refusal, open_map_leaves, map_entry_leaves};
ghost use Rattle.search.specs.Search.{picked};
ghost use Rattle.gemthatch.specs.OverC.{over_c, host_block, host_reading, host_writing, destination_from, block_from, lent, lent_map, request, query, call_number, entry_number, slot_number, search_number, in_octets, search_list, place, place_at};
ghost use Rattle.gemthatch.specs.Claims.{Claims};

use codec::{Block, Destination, Written};
use record::Rec;
use refusal::Refusal;
use search::Query;
use table::{Request, State};
use tally::Tally;

// The fields of a reservation as a C host has them: the destination's kind, 0 an address and 1 no re-broadcast, the address, the three
// octets, and the other fields.
#[repr(C)]
#[derive(Clone, Copy)]
pub struct HostBlock {
    pub destination: u32,
    pub d: u32,
    pub information: [u8; 3],
    pub blg: u32,
    pub roff: u32,
    pub br: u32,
    pub bs: u32,
    pub bo: i32,
    pub bt: u32,
}

// The fields where there are none.
const NO_BLOCK: HostBlock = HostBlock {
    destination: 0,
    d: 0,
    information: [0; 3],
    blg: 0,
    roff: 0,
    br: 0,
    bs: 0,
    bo: 0,
    bt: 0,
};

// What reading gives a C host: the bare refusal, 0 for none, and the fields, all 0 where it is refused.
#[repr(C)]
#[derive(Clone, Copy)]
pub struct HostReading {
    pub refusal: u32,
    pub block: HostBlock,
}

// What writing gives a C host: the bare refusal, 0 for none, and the nine octets, all 0 where it is refused.
#[repr(C)]
#[derive(Clone, Copy)]
pub struct HostWriting {
    pub refusal: u32,
    pub octets: [u8; 9],
}

// What a walk hands out at a place: the bare refusal, how many records (1, or 0 for no more), and the record, all 0 where there is none.
#[repr(C)]
#[derive(Clone, Copy)]
pub struct Place {
    pub refusal: u32,
    pub handed: u32,
    pub rec: Rec,
}

// ---- answers and lists as C has them

// The one number of a refused call.
fn refused(e: Refusal) -> u32
    ensures { result ≡ over_c (number_of e) 0 }
{
    2000000000 + u32::from(e)
}

// The one number of an answer.
fn over_c(said: Result<u32, Refusal>) -> u32
    ensures { result ≡ over_c (call_said said).refusal (call_said said).number }
{
    match said {
        Ok(number) => number,
        Err(e) => refused(e),
    }
}

// Puts numbers into a wiped list, four octets to each.
fn put_numbers(list: &mut [u8], numbers: &[u32])
    requires room { length numbers.now * 4 ≤ length list.old }
    requires wiped { list.old ≡ holds_only (length list.old) [] }
    ensures { list.new ≡ holds_only (length list.old) (in_octets numbers.now) }
{
    for i in 0..numbers.len() {
        let a = i * 4;
        // a part whose length the compiler knows, so that no test of it is left
        octets::put_number(&mut list[a..a + 4], 0, numbers[i]);
    }
}

// ---- the nine octets, the rates, the parameters

// A block for a C host: what its destination's kind does not use is 0.
impl From<Block> for HostBlock {
    ghost from_gives = { λ b h. h ≡ host_block b };

    fn from(b: Block) -> HostBlock {
        let (destination, d, information) = match b.d {
            Destination::Address(a) => (0, a, [0, 0, 0]),
            Destination::NoRebroadcast(o1, o2, o3) => (1, 0, [o1, o2, o3]),
        };
        HostBlock {
            destination,
            d,
            information,
            blg: b.blg,
            roff: b.roff,
            br: b.br,
            bs: b.bs,
            bo: b.bo,
            bt: b.bt,
        }
    }
}

// The destination that C hands over as a kind, an address and three octets: 1 is no re-broadcast, any other kind an address.
fn destination_from(kind: u32, d: u32, information: [u8; 3]) -> Destination
    ensures { result ≡ destination_from kind d information }
{
    if kind == 1 {
        return Destination::NoRebroadcast(information[0], information[1], information[2]);
    }
    Destination::Address(d)
}

// The block that C hands over: what its destination's kind does not use is ignored.
impl From<HostBlock> for Block {
    ghost from_gives = { λ h b. b ≡ block_from h };

    fn from(h: HostBlock) -> Block {
        let d = destination_from(h.destination, h.d, h.information);
        Block {
            d,
            blg: h.blg,
            roff: h.roff,
            br: h.br,
            bs: h.bs,
            bo: h.bo,
            bt: h.bt,
        }
    }
}

// Reads a reservation. Refused, in this order: 1, 2, 3, 4, 5, 6.
#[unsafe(no_mangle)]
pub extern "C" fn gemthatch_read(octets: &[u8]) -> HostReading
    ensures { result ≡ host_reading (reading octets.now) }
{
    match codec::read(octets) {
        Ok(block) => HostReading {
            refusal: 0,
            block: HostBlock::from(block),
        },
        Err(e) => HostReading {
            refusal: u32::from(e),
            block: NO_BLOCK,
        },
    }
}

// Writes a reservation. Refused, in this order: 8, 9, 3, 4, 5, 6, 34.
#[unsafe(no_mangle)]
pub extern "C" fn gemthatch_write(block: HostBlock) -> HostWriting
    ensures { result ≡ host_writing (writing (block_from block)) }
{
    let Written { said, octets } = codec::write(Block::from(block));
    match said {
        Ok(()) => HostWriting { refusal: 0, octets },
        Err(e) => HostWriting {
            refusal: u32::from(e),
            octets,
        },
    }
}

// The rate that a code stands for. Refused, in this order: 7, 3.
#[unsafe(no_mangle)]
pub extern "C" fn gemthatch_rate(rates: &[u8], code: u32) -> u32
    ensures { result ≡ over_c (rate_lookup rates.now code).refusal (rate_lookup rates.now code).number }
{
    over_c(codec::rate(rates, code))
}

// 0 where a figure fits its parameter. Refused, in this order: 22, 10.
#[unsafe(no_mangle)]
pub extern "C" fn gemthatch_parameter(number: u32, figure: u32) -> u32
    ensures { result ≡ over_c (first_of (parameter_tests number figure)) 0 }
{
    match codec::parameter(number, figure) {
        Ok(()) => 0,
        Err(e) => refused(e),
    }
}

// ---- the table

// Opens a table of M1 slots in lent memory, with a map of M1 octets. Refused, in this order: 10, 1, 25.
#[unsafe(no_mangle)]
pub extern "C" fn gemthatch_open(memory: &mut [u8], map: &mut [u8], m1: u32) -> u32
    ensures answer { result ≡ over_c (open_map_refusal m1 memory.old map.old) 0 }
    ensures memory { memory.new ≡ (open_map_leaves m1 memory.old map.old).channel.memory }
    ensures map { map.new ≡ (open_map_leaves m1 memory.old map.old).map }
{
    let mut s = State::default();
    match slotmap::open(&mut s, memory, map, m1) {
        Ok(()) => 0,
        Err(e) => refused(e),
    }
}

// Sets the time, drops the records that are over, reports how many. Refused, in this order: 11, 25, 12, 13.
#[unsafe(no_mangle)]
pub extern "C" fn gemthatch_clock(
    memory: &mut [u8],
    map: &mut [u8],
    m1: u32,
    time: u32,
    count: u32,
    slot: u32,
) -> u32
    ensures answer { result ≡ call_number (lent_map m1 time count memory.old map.old) (clock slot) }
    ensures memory { memory.new ≡ (map_leaves (lent_map m1 time count memory.old map.old) (clock slot)).channel.memory }
    ensures map { map.new ≡ (map_leaves (lent_map m1 time count memory.old map.old) (clock slot)).map }
{
    let mut s = State {
        m1,
        now: time,
        count,
    };
    over_c(slotmap::clock(&mut s, memory, map, slot))
}

// Adds one record at the end. Refused, in this order: 11, 25, 8, 14, 15, 9, 5, 6, 24, 18, 16, 17.
#[unsafe(no_mangle)]
pub extern "C" fn gemthatch_reserve(
    memory: &mut [u8],
    map: &mut [u8],
    m1: u32,
    time: u32,
    count: u32,
    station: u32,
    rate: u32,
    superframes: u32,
    bs: u32,
    length: u32,
    bo: i32,
    kind: u32,
    a: f64,
    b: f64,
    limit: f64,
) -> u32
    ensures answer { result ≡ call_number (lent_map m1 time count memory.old map.old) (reserve (request station rate superframes bs length bo kind a b limit)) }
    ensures memory { memory.new ≡ (map_leaves (lent_map m1 time count memory.old map.old) (reserve (request station rate superframes bs length bo kind a b limit))).channel.memory }
    ensures map { map.new ≡ (map_leaves (lent_map m1 time count memory.old map.old) (reserve (request station rate superframes bs length bo kind a b limit))).map }
{
    let mut s = State {
        m1,
        now: time,
        count,
    };
    let q = Request {
        station,
        rate,
        superframes,
        bs,
        length,
        bo,
        distance: distance::distance_of(kind, a, b),
        limit,
    };
    over_c(slotmap::reserve(&mut s, memory, map, q))
}

// Rewrites far in all the station's records, reports how many it has. Refused, in this order: 11, 25, 8, 18.
#[unsafe(no_mangle)]
pub extern "C" fn gemthatch_distance(
    memory: &mut [u8],
    map: &mut [u8],
    m1: u32,
    time: u32,
    count: u32,
    station: u32,
    kind: u32,
    a: f64,
    b: f64,
    limit: f64,
) -> u32
    ensures answer { result ≡ call_number (lent_map m1 time count memory.old map.old) (distance station (distance_of kind a b) limit) }
    ensures memory { memory.new ≡ (map_leaves (lent_map m1 time count memory.old map.old) (distance station (distance_of kind a b) limit)).channel.memory }
    ensures map { map.new ≡ (map_leaves (lent_map m1 time count memory.old map.old) (distance station (distance_of kind a b) limit)).map }
{
    let mut s = State {
        m1,
        now: time,
        count,
    };
    let d = distance::distance_of(kind, a, b);
    over_c(slotmap::distance(&mut s, memory, map, station, d, limit))
}

// Removes the station's records, reports how many. Refused, in this order: 11, 25, 8.
#[unsafe(no_mangle)]
pub extern "C" fn gemthatch_wipe(
    memory: &mut [u8],
    map: &mut [u8],
    m1: u32,
    time: u32,
    count: u32,
    station: u32,
) -> u32
    ensures answer { result ≡ call_number (lent_map m1 time count memory.old map.old) (wipe station) }
    ensures memory { memory.new ≡ (map_leaves (lent_map m1 time count memory.old map.old) (wipe station)).channel.memory }
    ensures map { map.new ≡ (map_leaves (lent_map m1 time count memory.old map.old) (wipe station)).map }
{
    let mut s = State {
        m1,
        now: time,
        count,
    };
    over_c(slotmap::wipe(&mut s, memory, map, station))
}

// Applies a log record. Refused 23 where it is none, before anything that its call is refused for.
#[unsafe(no_mangle)]
pub extern "C" fn gemthatch_replay_step(
    memory: &mut [u8],
    map: &mut [u8],
    m1: u32,
    time: u32,
    count: u32,
    entry: &[u8],
) -> u32
    ensures answer { result ≡ entry_number (lent_map m1 time count memory.old map.old) entry.now }
    ensures memory { memory.new ≡ (map_entry_leaves (lent_map m1 time count memory.old map.old) entry.now).channel.memory }
    ensures map { map.new ≡ (map_entry_leaves (lent_map m1 time count memory.old map.old) entry.now).map }
{
    let mut s = State {
        m1,
        now: time,
        count,
    };
    over_c(slotmap::step(&mut s, memory, map, entry))
}

// ---- slots

// The slot state: 0 free, 1 reusable, 2 taken. Refused, in this order: 11, 12, 13.
#[unsafe(no_mangle)]
pub extern "C" fn gemthatch_slot_state(
    memory: &[u8],
    m1: u32,
    time: u32,
    count: u32,
    slot: u32,
) -> u32
    ensures { result ≡ slot_number (lent m1 time count memory.now) slot }
{
    let s = State {
        m1,
        now: time,
        count,
    };
    match slots::slot_state(s, memory, slot) {
        Ok(state) => u32::from(state),
        Err(e) => refused(e),
    }
}

// Lists the first starts of a block that may be used, four octets to each, into a list that is wiped at each call.
// Refused, in this order: 11, 25, 19, 9, 20, 1, 21.
#[unsafe(no_mangle)]
pub extern "C" fn gemthatch_search(
    memory: &[u8],
    map: &[u8],
    m1: u32,
    time: u32,
    count: u32,
    lo: u32,
    hi: u32,
    length: u32,
    wanted: u32,
    list: &mut [u8],
) -> u32
    ensures answer { result ≡ search_number (lent_map m1 time count memory.now map.now) (query lo hi length wanted) (len list.old) }
    ensures list { list.new ≡ search_list (lent_map m1 time count memory.now map.now) (query lo hi length wanted) (len list.old) }
{
    octets::clear_from(list, 0);
    let s = State {
        m1,
        now: time,
        count,
    };
    let q = Query {
        lo,
        hi,
        length,
        wanted,
    };
    // No search lists more than 16.
    let places = (list.len() / 4).min(16);
    let mut room = [0u32; 16];
    let starts = &mut room[..places];
    match search::search(s, memory, map, q, starts) {
        Ok(number) => {
            put_numbers(list, &starts[..number as usize]);
            number
        }
        Err(e) => refused(e),
    }
}

// Which of the n found to use, by a number r. Refused 20 for n outside 1..16.
#[unsafe(no_mangle)]
pub extern "C" fn gemthatch_pick(n: u32, r: u32) -> u32
    ensures { result ≡ over_c (picked n r).refusal (picked n r).place }
{
    over_c(search::pick(n, r))
}

// ---- the walk and the tally

// A place with no record.
fn no_record(refusal: u32) -> Place
    ensures { result ≡ place refusal None }
{
    Place {
        refusal,
        handed: 0,
        rec: Rec::default(),
    }
}

// Record i of a table, or no more. Refused 11.
#[unsafe(no_mangle)]
pub extern "C" fn gemthatch_record_at(
    memory: &[u8],
    m1: u32,
    time: u32,
    count: u32,
    i: u32,
) -> Place
    ensures { result ≡ place_at (lent m1 time count memory.now) i }
{
    let s = State {
        m1,
        now: time,
        count,
    };
    match walk::record_at(s, memory, i) {
        Ok(Some(rec)) => Place {
            refusal: 0,
            handed: 1,
            rec,
        },
        Ok(None) => no_record(0),
        Err(e) => no_record(u32::from(e)),
    }
}

// Counts a call by its bare refusal number, 0 being accepted.
#[unsafe(no_mangle)]
pub extern "C" fn gemthatch_count(tally: &mut Tally, refusal: u32)
    ensures { tally.new ≡ counted tally.old refusal }
{
    tally::count(tally, refusal);
}

// What this crate claims over its promises.
pub fn claims()
    ensures { Claims }
{}
