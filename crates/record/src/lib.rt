// Records in lent memory, 16 octets each. Nothing above this crate knows how they lie there.
#![tactic(auto, unfolding(crate::specs::Record::size, crate::specs::Record::whole, crate::specs::Record::capacity, crate::specs::Record::rest, crate::specs::Record::clear_after, crate::specs::Record::clear_between))]

ghost use Rattle.std.specs.Prelude.{◌≡◌, cond, ltb, ◌<◌, ◌≤◌, min, length, get_or, set, take};
ghost use Rattle.octets.specs.Octets.{zeros};
ghost use Rattle.record.specs.Record.{size, encode, decode, blank, whole, capacity, rest, clear_after, clear_between, all_records, stored, copied};
ghost use Rattle.record.specs.Claims.{Claims};

// The octets of a record.
pub const SIZE: usize = 16;

// The three octets behind bo.
#[repr(C)]
#[derive(Clone, Copy, Default)]
pub struct Zeros {
    pub a: u8,
    pub b: u8,
    pub c: u8,
}

// A record of the table; bo is its octet. It is laid out as in C: it crosses to a C host as it is.
#[repr(C)]
#[derive(Clone, Copy, Default)]
pub struct Rec {
    pub station: u32,
    pub first: u32,
    pub rate: u8,
    pub superframes: u8,
    pub length: u8,
    pub far: u8,
    pub bo: u8,
    pub zeros: Zeros,
}

// The record that the octets of one say.
fn decoded(s: &[u8]) -> Rec
    requires { length s.now ≡ size }
    ensures { result ≡ decode s.now }
{
    Rec {
        station: octets::number_at(s, 0),
        first: octets::number_at(s, 4),
        rate: octets::octet_at(s, 8),
        superframes: octets::octet_at(s, 9),
        length: octets::octet_at(s, 10),
        far: octets::octet_at(s, 11),
        bo: octets::octet_at(s, 12),
        zeros: Zeros {
            a: octets::octet_at(s, 13),
            b: octets::octet_at(s, 14),
            c: octets::octet_at(s, 15),
        },
    }
}

// Writes r over the octets of one record.
fn encode_over(s: &mut [u8], r: Rec)
    requires { length s.old ≡ size }
    ensures { s.new ≡ encode r }
{
    octets::put_number(s, 0, r.station);
    octets::put_number(s, 4, r.first);
    octets::put_octet(s, 8, r.rate);
    octets::put_octet(s, 9, r.superframes);
    octets::put_octet(s, 10, r.length);
    octets::put_octet(s, 11, r.far);
    octets::put_octet(s, 12, r.bo);
    octets::put_octet(s, 13, r.zeros.a);
    octets::put_octet(s, 14, r.zeros.b);
    octets::put_octet(s, 15, r.zeros.c);
}

// Whether a memory is a whole number of records.
pub fn whole(memory: &[u8]) -> bool
    ensures { result ≡ whole memory.now }
{
    memory.len() % SIZE == 0
}

// How many records a memory has room for.
pub fn capacity(memory: &[u8]) -> usize
    ensures { result ≡ capacity memory.now }
{
    memory.len() / SIZE
}

// How many of the first n records there are. In a loop up to it the compiler leaves out load's own test.
pub fn held_count(memory: &[u8], n: usize) -> usize
    ensures { (result ≡ min n (capacity memory.now)) × (result ≤ capacity memory.now) × (take result (all_records memory.now) ≡ take n (all_records memory.now)) }
{
    n.min(capacity(memory))
}

// Whether every octet after the first n records is 0. Where n is above the capacity there is none, and n * SIZE might not fit.
pub fn is_clear(memory: &[u8], n: usize) -> bool
    ensures { result ≡ zeros (rest n memory.now) }
{
    if n <= capacity(memory) {
        return octets::zero_from(memory, n * SIZE);
    }
    true
}

// Makes every octet after the first n records 0. Where n is above the capacity there is none.
pub fn clear(memory: &mut [u8], n: usize)
    ensures { memory.new ≡ clear_after n memory.old }
{
    if n <= capacity(memory) {
        octets::clear_from(memory, n * SIZE);
    }
}

// Makes the octets of records i to n - 1 0. Where n is above the capacity, or i above n, nothing is cleared.
pub fn clear_between(memory: &mut [u8], i: usize, n: usize)
    ensures { memory.new ≡ clear_between i n memory.old }
{
    if (i <= n) & (n <= capacity(memory)) {
        octets::clear_from(&mut memory[..n * SIZE], i * SIZE);
    }
}

// Record i; past the last, the record of zeros. Its octets are a part of the memory, of a length that the compiler knows.
pub fn load(memory: &[u8], i: usize) -> Rec
    ensures { result ≡ get_or (all_records memory.now) i blank }
{
    if i < capacity(memory) {
        let a = i * SIZE;
        return decoded(&memory[a..a + SIZE]);
    }
    Rec::default()
}

// Writes r over record i; past the last, nothing is written.
pub fn store(memory: &mut [u8], i: usize, r: Rec)
    ensures octets { memory.new ≡ stored memory.old i r }
    ensures records { all_records memory.new ≡ set (all_records memory.old) i r }
{
    if i < capacity(memory) {
        let a = i * SIZE;
        encode_over(&mut memory[a..a + SIZE], r);
    }
}

// Writes record i over record k; where one of them is past the last, nothing is written. The octets are moved as one: the compiler knows how many
// they are.
#[inline]
pub fn copy(memory: &mut [u8], i: usize, k: usize)
    ensures octets { memory.new ≡ copied memory.old i k }
    ensures records { all_records memory.new ≡ cond (ltb i (capacity memory.old)) (set (all_records memory.old) k (get_or (all_records memory.old) i blank)) (all_records memory.old) }
{
    let all = capacity(memory);
    if (i < all) & (k < all) {
        let a = i * SIZE;
        memory.copy_within(a..a + SIZE, k * SIZE);
    }
}

// What this crate claims over its promises.
pub fn claims()
    ensures { Claims }
{}
