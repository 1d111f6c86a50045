// Whether a table in lent memory is sound.
#![tactic(auto)]

ghost use Rattle.std.specs.Prelude.{◌≡◌, true, ◌&&◌, ◌≤◌, take};
ghost use Rattle.octets.specs.Lists.{every};
ghost use Rattle.octets.specs.Refusals.{within};
ghost use Rattle.codec.specs.Parameters.{m1_row, fits};
ghost use Rattle.record.specs.Record.{all_records};
ghost use Rattle.sound.specs.Sound.{size_fits, numbers_fit, in_range, not_below0, lasts, good, sound};

use record::Rec;

// Whether x lies in lo..hi. It is a function of its own: with `contains` in `is_good` itself the tests become vector code.
fn in_range(lo: u32, hi: u32, x: u32) -> bool
    ensures { result ≡ within lo hi x }
{
    (lo..=hi).contains(&x)
}

// Whether M1 fits its row.
pub fn m1_fits(m1: u32) -> bool
    ensures { result ≡ fits m1_row m1 }
{
    codec::parameter(1, m1).is_ok()
}

// Whether a memory is a whole number of records, 1 to 2,048.
pub fn size_fits(memory: &[u8]) -> bool
    ensures { result ≡ size_fits memory.now }
{
    let whole = record::whole(memory);
    let n = record::capacity(memory);
    let few = n < 1;
    let many = 2048 < n;
    whole & !(few | many)
}

// Whether the size and the numbers beside the records fit.
fn numbers_fit(m1: u32, time: u32, count: u32, memory: &[u8]) -> bool
    ensures { result ≡ numbers_fit (record { m1 = m1; now = time; count = count; memory = memory.now }) }
{
    let size = size_fits(memory);
    let row = m1_fits(m1);
    let early = time <= 1000000000;
    let n = count as usize;
    let room = n <= record::capacity(memory);
    size & row & early & room
}

// Whether a table of M1 slots at a time is sound: what stands beside the records fits, they are good, and all after them is 0.
pub fn is_sound(m1: u32, time: u32, count: u32, memory: &[u8]) -> bool
    ensures { result ≡ sound (record { m1 = m1; now = time; count = count; memory = memory.now }) }
{
    if !numbers_fit(m1, time, count, memory) {
        return false;
    }
    let n = count as usize;
    let rule = Rule { m1, time };
    rule.all_good(memory, n) && record::is_clear(memory, n)
}

// ---- what records are good by

// An M1 that is not above its row, and a time. A record's sums are worked out here in 32 bits, which are enough for one in range: over the octets that were
// tested they are quicker than series' own.
#[derive(Clone, Copy)]
struct Rule {
    m1: u32,
    time: u32,
    ghost m1_most: { m1 ≤ 15360 },
}

impl Rule {
    // Whether all of the first n records are good.
    fn all_good(self, memory: &[u8], n: usize) -> bool
        ensures { result ≡ every (good self.m1 self.time) (take n (all_records memory.now)) }
    {
        for i in 0..record::held_count(memory, n) {
            if !self.is_good(record::load(memory, i)) {
                return false;
            }
        }
        true
    }

    // Whether a record is good. The ranges are tested here, and on widened octets: apart from the sum, or as octets, they become vector code, which
    // is slower.
    fn is_good(self, r: Rec) -> bool
        ensures { result ≡ good self.m1 self.time r }
    {
        let station = r.station < 134217728;
        let first = r.first <= 1000000255;
        let rate = in_range(1, 60, u32::from(r.rate));
        let superframes = in_range(1, 3, u32::from(r.superframes));
        let length = in_range(1, 32, u32::from(r.length));
        let far = r.far <= 1;
        let bo = r.bo != 128;
        // One by one, as record derives no equality for them.
        let zeros = (r.zeros.a == 0) & (r.zeros.b == 0) & (r.zeros.c == 0);
        if station & first & rate & superframes & length & far & bo & zeros {
            return self.stands(r);
        }
        false
    }

    // Whether a record in range has no further series below slot 0, and is not over at the time: `base` is where its last superframe starts, and by
    // `next`, less 128, the further one starts later than that. The record lasts no more than
    // `next` slots longer for it, so `as` loses nothing.
    fn stands(self, r: Rec) -> bool
        requires { in_range r ≡ true }
        ensures { result ≡ (not_below0 self.m1 r && lasts self.m1 self.time r) }
    {
        let rate = u32::from(r.rate);
        let base = r.first + (u32::from(r.superframes) - 1) * self.m1;
        let next = self.m1 + u32::from(octets::lifted(r.bo));
        let later = series::later_by(r.bo, u64::from(next)) as u32;
        let last = base + (rate - 1) * (self.m1 / rate) + u32::from(r.length) - 1 + later;
        (128 <= base + next) & (self.time <= last)
    }
}
