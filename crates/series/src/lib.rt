// The block series of a record: which slots it reserves, and its last one.
#![tactic(auto)]

ghost use Rattle.std.specs.Prelude.{◌≡◌, ◌+◌, ◌-◌, ◌*◌, ◌/◌, ◌<◌, ◌≤◌, if◌then◌else◌, nat_eq, nat_lt};
ghost use Rattle.octets.specs.Complement.{lifted};
ghost use Rattle.series.specs.Series.{in_series, further_from, reserves, last_slot};
ghost use Rattle.series.specs.Candidate.{last_started, ahead_of};
ghost use Rattle.series.specs.Steps.{less_step};
ghost use Rattle.series.specs.Claims.{Claims};

use record::Rec;

// How far a is ahead of b. Where it is behind, the processor's subtraction gives a number above all others here.
pub fn ahead_of(a: u64, b: u64) -> u64
    ensures { result ≡ ahead_of a b }
{
    a.wrapping_sub(b)
}

// A product of an octet and a number of 32 bits, which 64 bits hold.
fn times(n: u8, m: u32) -> u64
    ensures { (result ≡ n * m) × (result ≤ 1095216660225) }
{
    u64::from(n) * u64::from(m)
}

// How far x is past the last of the starts 0, step, 2*step .. most*step that is not past it.
fn since_last(most: u64, step: u64, x: u64) -> u64
    ensures { result ≡ x - last_started most step x * step }
{
    let last = most.min(x.checked_div(step).unwrap_or(0));
    x - last * step
}

// Whether a series of a record's blocks, from a slot on in so many superframes, has a slot: the last block that has started by it, in the last
// superframe that has, tells. An earlier block ends no later, since all have one length.
fn in_series(r: Rec, m: u64, from: u64, superframes: u64, slot: u64) -> bool
    ensures { result ≡ in_series m r from superframes slot }
{
    let rate = u64::from(r.rate);
    if (0 < superframes) & (0 < rate) & (from <= slot) {
        let into_superframe = since_last(superframes - 1, m, slot - from);
        let into_block = since_last(rate - 1, m / rate, into_superframe);
        return into_block < u64::from(r.length);
    }
    false
}

// Where the further series begins, and 128.
pub fn further_from(r: Rec, m1: u32) -> u64
    ensures { (result ≡ further_from m1 r) × (result ≤ 1099511627775) }
{
    u64::from(r.first) + times(r.superframes, m1) + u64::from(octets::lifted(r.bo))
}

// Whether a record reserves a slot, whatever its blocks are: one series is asked after the other.
fn reserves_any(r: Rec, m1: u32, slot: u32) -> bool
    ensures { result ≡ reserves m1 r slot }
{
    let m = u64::from(m1);
    let s = u64::from(slot);
    if in_series(r, m, u64::from(r.first), u64::from(r.superframes), s) {
        return true;
    }
    if r.bo == 0 {
        return false;
    }
    in_series(r, m, further_from(r, m1), 1, s + 128)
}

// ---- a record whose blocks lie apart, so that no superframe has a slot behind its M1

// x less a superframe, where it is not before its end.
fn less_superframe(m1: u64, x: u64) -> u64
    ensures { result ≡ less_step m1 x }
{
    x.min(ahead_of(x, m1))
}

// Such a record, of three superframes at most, with how far apart its blocks start.
#[derive(Clone, Copy)]
struct Spaced {
    r: Rec,
    m1: u32,
    spacing: u32,
    ghost has_blocks: { 0 < r.rate },
    ghost by_rate: { spacing ≡ m1 / r.rate },
    ghost blocks_apart: { r.length < spacing },
    ghost few_superframes: { r.superframes ≤ 3 },
}

impl Spaced {
    // Whether a slot so far into a superframe is in one of its blocks. Where there is but one, nothing is divided.
    fn in_block(self, x: u32) -> bool
        ensures { result ≡ nat_lt (x - last_started (self.r.rate - 1) self.spacing x * self.spacing) self.r.length }
    {
        let rate = u32::from(self.r.rate);
        let length = u32::from(self.r.length);
        if rate == 1 {
            return x < length;
        }
        (x < rate * self.spacing) & (x % self.spacing < length)
    }

    // Whether it reserves a slot that only one of its series can have: one division tells of both. There is no branch by which of the two it is,
    // as no processor can guess that.
    fn reserves(self, slot: u32, into_further: u64) -> bool
        requires ahead_of_further { into_further ≡ ahead_of (slot + 128) (further_from self.m1 self.r) }
        requires one_series { 128 - lifted self.r.bo ≤ into_further }
        ensures { result ≡ reserves self.m1 self.r slot }
    {
        let r = self.r;
        let m = u64::from(self.m1);
        let since = ahead_of(u64::from(slot), u64::from(r.first));
        let own = since < times(r.superframes, self.m1);
        let further = (r.bo != 0) & (into_further < m);
        let into_own = less_superframe(m, less_superframe(m, since));
        // What has more than 32 bits is in neither, so `as` loses nothing.
        let into = std::hint::select_unpredictable(own, into_own, into_further) % 4294967296;
        (own | further) & self.in_block(into as u32)
    }
}

// Whether a record reserves a slot.
pub fn reserves(r: Rec, m1: u32, slot: u32) -> bool
    ensures { result ≡ reserves m1 r slot }
{
    let rate = u32::from(r.rate);
    if rate < 1 {
        return false;
    }
    let spacing = m1 / rate;
    let into_further = ahead_of(u64::from(slot) + 128, further_from(r, m1));
    // Both series can have a slot only from where the further one begins up to where the superframes from first on are over: bo is below 0 there.
    let apart = (u32::from(r.length) < spacing) & (r.superframes <= 3);
    if apart & (128u64.saturating_sub(u64::from(octets::lifted(r.bo))) <= into_further) {
        let record = Spaced { r, m1, spacing };
        return record.reserves(slot, into_further);
    }
    reserves_any(r, m1, slot)
}

// How much later the further series ends than the first, by how much later it begins than the first one's last superframe, and 128: 0 where there
// is none, or it ends no later. Both tests are one: apart, the compiler makes a branch of bo's, which no processor can guess.
pub fn later_by(bo: u8, next: u64) -> u64
    ensures { (result ≡ (if nat_eq bo 0 then 0 else next - 128)) × (result ≤ next) }
{
    if (bo == 0) | (next < 128) {
        return 0;
    }
    next - 128
}

// The slots from the start of a superframe's first block to that of its last.
fn to_last_block(r: Rec, m1: u32) -> u64
    ensures value { result ≡ (r.rate - 1) * (m1 / r.rate) }
    ensures bound { result ≤ m1 }
{
    let rate = u64::from(r.rate);
    if rate == 0 {
        return 0;
    }
    (rate - 1) * (u64::from(m1) / rate)
}

// The last slot that a record reserves: the later of its two series' ends, which have blocks alike.
pub fn last_slot(r: Rec, m1: u32) -> u64
    ensures { result ≡ last_slot m1 r }
{
    let first = u64::from(r.first);
    let lifted = u64::from(octets::lifted(r.bo));
    let run = to_last_block(r, m1) + u64::from(r.length);
    if r.superframes == 0 {
        return (first + run + later_by(r.bo, lifted)).saturating_sub(1);
    }
    let last = first + times(r.superframes - 1, m1);
    (last + run + later_by(r.bo, u64::from(m1) + lifted)).saturating_sub(1)
}

// What this crate claims over its promises.
pub fn claims()
    ensures { Claims }
{}
