// The records of a channel log: what each asks of the table, and the step that applies one.
#![tactic(auto, unfolding(crate::specs::Entries::call_in, crate::specs::Entries::entry_says, crate::specs::Entries::entry_leaves))]

ghost use Rattle.std.specs.Prelude.{◌≡◌, [], ◌∷◌};
ghost use Rattle.octets.specs.Octets.{zeros};
ghost use Rattle.table.specs.Memory.{channel, state_of, call_said};
ghost use Rattle.daylog.specs.Entries.{log_record_of, in_miles, clock_in, reserve_in, distance_in, wipe_in, by_operation, call_in, entry_says, entry_leaves};
ghost use Rattle.daylog.specs.Claims.{Claims};

use distance::Distance;
use refusal::Refusal;
use table::{Answer, Request, State};

// The octets of a log record.
pub const ENTRY: usize = 24;

// The numbers of a log record, in the order in which they stand there. The slot is a reserve's bs; `closing` are the three zeros at the end.
#[derive(Clone, Copy)]
struct LogRecord {
    operation: u8,
    rate: u8,
    superframes: u8,
    length: u8,
    station: u32,
    slot: u32,
    distance: u32,
    limit: u32,
    bo: u8,
    closing: u32,
}

// What a log record asks for: a call of the table.
#[derive(Clone, Copy)]
pub enum LoggedCall {
    Clock(u32),
    Reserve(Request),
    SetDistance(u32, Distance, f64),
    Wipe(u32),
}

fn log_record(octets: &[u8; ENTRY]) -> LogRecord
    ensures { result ≡ log_record_of octets.now }
{
    LogRecord {
        operation: octets[0],
        rate: octets[1],
        superframes: octets[2],
        length: octets[3],
        station: octets::number_at(octets, 4),
        slot: octets::number_at(octets, 8),
        distance: octets::number_at(octets, 12),
        limit: octets::number_at(octets, 16),
        bo: octets[20],
        closing: u32::from_le_bytes([octets[21], octets[22], octets[23], 0]),
    }
}

// A distance in whole miles; all ones for unknown. No `From`: only in a log record do all ones say so.
fn in_miles(n: u32) -> Distance
    ensures { result ≡ in_miles n }
{
    if n == u32::MAX {
        return Distance::Unknown;
    }
    Distance::Range(f64::from(n))
}

// Whether rate, superframes, length and bo, which only a reserve uses, are 0.
fn no_series(r: LogRecord) -> bool
    ensures { result ≡ zeros (r.rate ∷ r.superframes ∷ r.length ∷ r.bo ∷ []) }
{
    (r.rate == 0) & (r.superframes == 0) & (r.length == 0) & (r.bo == 0)
}

fn clock_in(r: LogRecord) -> Option<LoggedCall>
    ensures { result ≡ clock_in r }
{
    let others = (r.station == 0) & (r.distance == 0) & (r.limit == 0) & (r.closing == 0);
    (no_series(r) & others).then_some(LoggedCall::Clock(r.slot))
}

fn reserve_in(r: LogRecord) -> Option<LoggedCall>
    ensures { result ≡ reserve_in r }
{
    let q = Request {
        station: r.station,
        rate: u32::from(r.rate),
        superframes: u32::from(r.superframes),
        bs: r.slot,
        length: u32::from(r.length),
        bo: octets::signed(r.bo),
        distance: in_miles(r.distance),
        limit: f64::from(r.limit),
    };
    (r.closing == 0).then_some(LoggedCall::Reserve(q))
}

fn distance_in(r: LogRecord) -> Option<LoggedCall>
    ensures { result ≡ distance_in r }
{
    let others = (r.slot == 0) & (r.closing == 0);
    let call = LoggedCall::SetDistance(r.station, in_miles(r.distance), f64::from(r.limit));
    (no_series(r) & others).then_some(call)
}

fn wipe_in(r: LogRecord) -> Option<LoggedCall>
    ensures { result ≡ wipe_in r }
{
    let others = (r.slot == 0) & (r.distance == 0) & (r.limit == 0) & (r.closing == 0);
    (no_series(r) & others).then_some(LoggedCall::Wipe(r.station))
}

fn by_operation(r: LogRecord) -> Option<LoggedCall>
    ensures { result ≡ by_operation r }
{
    match r.operation {
        1 => clock_in(r),
        2 => reserve_in(r),
        3 => distance_in(r),
        4 => wipe_in(r),
        _ => None,
    }
}

// What octets ask for: a call, or none, which is refused 23.
pub fn read(octets: &[u8]) -> Option<LoggedCall>
    ensures { result ≡ call_in octets.now }
{
    let Ok(octets) = octets.try_into() else {
        return None;
    };
    by_operation(log_record(octets))
}

// Applies a log record to a table. Refused 23 where it asks for no call, before anything that its call is refused for.
pub fn step(s: &mut State, memory: &mut [u8], octets: &[u8]) -> Result<u32, Refusal>
    ensures answer { call_said result ≡ entry_says (channel s.old memory.old) octets.now }
    ensures state { s.new ≡ state_of (entry_leaves (channel s.old memory.old) octets.now) }
    ensures memory { memory.new ≡ (entry_leaves (channel s.old memory.old) octets.now).memory }
{
    let call = read(octets).ok_or(Refusal::Entry)?;
    let Answer { said, state } = match call {
        LoggedCall::Clock(slot) => s.clock(memory, slot),
        LoggedCall::Reserve(q) => s.reserve(memory, q),
        LoggedCall::SetDistance(station, d, limit) => s.distance(memory, station, d, limit),
        LoggedCall::Wipe(station) => s.wipe(memory, station),
    };
    *s = state;
    said
}

// What this crate claims over its promises.
pub fn claims()
    ensures { Claims }
{}
