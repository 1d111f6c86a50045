// Little-endian numbers in octets, two's complement, octets that are 0, octets compared, and octets copied.
#![tactic(auto, unfolding(crate::specs::Octets::number_at, crate::specs::Octets::put_at, crate::specs::Octets::to_front, crate::specs::Octets::little))]

ghost use Rattle.std.specs.Prelude.{◌≡◌, drop};
ghost use Rattle.octets.specs.Octets.{stand, number_at, put_at, zeros, zero_from, to_front, same_octets, copied_over};
ghost use Rattle.octets.specs.Complement.{signed_of, octet_of, lifted};
ghost use Rattle.octets.specs.Claims.{Claims};

// ---- numbers in lent octets: where they don't all stand there, 0 is read and nothing is written

// Whether n octets stand in a memory from a place on.
fn stand(n: usize, memory: &[u8], at: usize) -> bool
    ensures { result ≡ stand n memory.now at }
{
    n <= memory.len() && at <= memory.len() - n
}

// The octet at a place.
pub fn octet_at(memory: &[u8], at: usize) -> u8
    ensures { result ≡ number_at 1 memory.now at }
{
    memory.get(at).copied().unwrap_or(0)
}

// The number in the four octets from a place on.
pub fn number_at(memory: &[u8], at: usize) -> u32
    ensures { result ≡ number_at 4 memory.now at }
{
    if stand(4, memory, at) {
        return u32::from_le_bytes([memory[at], memory[at + 1], memory[at + 2], memory[at + 3]]);
    }
    0
}

// Writes over the octet at a place.
pub fn put_octet(memory: &mut [u8], at: usize, x: u8)
    ensures { memory.new ≡ put_at 1 memory.old at x }
{
    if at < memory.len() {
        memory[at] = x;
    }
}

// Writes a number over the four octets from a place on.
pub fn put_number(memory: &mut [u8], at: usize, x: u32)
    ensures { memory.new ≡ put_at 4 memory.old at x }
{
    if stand(4, memory, at) {
        memory[at..at + 4].copy_from_slice(&x.to_le_bytes());
    }
}

// The number that an octet says in two's complement.
pub fn signed(x: u8) -> i32
    ensures { result ≡ signed_of x }
{
    i32::from(x.cast_signed())
}

// The octet that says a number of -127..127 in two's complement, 0 for any other.
pub fn twos(z: i32) -> u8
    ensures { result ≡ octet_of z }
{
    if (z < -127) | (127 < z) {
        return 0;
    }
    (z as i8).cast_unsigned()
}

// The number that an octet says in two's complement, and 128.
pub fn lifted(x: u8) -> u8
    ensures { result ≡ lifted x }
{
    x.wrapping_add(128)
}

// Whether every octet from `at` on is 0, by the greatest of them. It looks at all: without an early way out the loop is vectorised.
pub fn zero_from(memory: &[u8], at: usize) -> bool
    ensures { result ≡ zeros (drop at memory.now) }
{
    let Some(octets) = memory.get(at..) else {
        return true;
    };
    let mut greatest = 0u8;
    for &x in octets {
        greatest = greatest.max(x);
    }
    greatest == 0
}

// Makes every octet from `at` on 0. The loop becomes one memset, where `fill` would store the last octet apart.
pub fn clear_from(memory: &mut [u8], at: usize)
    ensures { memory.new ≡ zero_from at memory.old }
{
    for i in at..memory.len() {
        memory[i] = 0;
    }
}

// Whether octets are as many as others, and each the same. It looks at all: without an early way out the loop is vectorised. It goes by
// index: a `zip` takes a third longer on short slices.
pub fn same(a: &[u8], b: &[u8]) -> bool
    ensures { result ≡ same_octets a.now b.now }
{
    if a.len() != b.len() {
        return false;
    }
    let mut all = true;
    for i in 0..a.len() {
        all &= a[i] == b[i];
    }
    all
}

// Copies octets over the first of others, as many as both have.
pub fn copy(to: &mut [u8], from: &[u8])
    ensures { to.new ≡ copied_over from.now to.old }
{
    let n = to.len().min(from.len());
    to[..n].copy_from_slice(&from[..n]);
}

// Copies the n octets from a place on to the front. Where they don't all stand there, nothing is copied.
pub fn to_front(memory: &mut [u8], at: usize, n: usize)
    ensures { memory.new ≡ to_front at n memory.old }
{
    if stand(n, memory, at) {
        memory.copy_within(at..at + n, 0);
    }
}

// What this crate claims over its promises.
pub fn claims()
    ensures { Claims }
{}
