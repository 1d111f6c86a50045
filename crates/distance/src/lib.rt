// Distances, and which of them are far; the reuse limit.
#![tactic(auto)]

ghost use Rattle.std.specs.Prelude.{◌≡◌};
ghost use Rattle.distance.specs.Distances.{between, offset_far, is_far, limit_fits, distance_of};
ghost use Rattle.distance.specs.Claims.{Claims};

// An offset as the navigation unit hands it over: how far to the east and to the north, in nautical miles.
#[derive(Clone, Copy)]
pub struct Offset {
    pub east: f64,
    pub north: f64,
}

// A distance as the navigation unit hands it over: unknown, a range in nautical miles, or an offset.
#[derive(Clone, Copy)]
pub enum Distance {
    Unknown,
    Range(f64),
    Offset(Offset),
}

// Whether x lies in lo..hi; false of a NaN.
fn between(lo: f64, hi: f64, x: f64) -> bool
    ensures { result ≡ between lo hi x }
{
    (lo <= x) & (x <= hi)
}

fn offset_far(o: Offset, limit: f64) -> bool
    ensures { result ≡ offset_far o.east o.north limit }
{
    let east = o.east;
    let north = o.north;
    let in_range = between(-4096.0, 4096.0, east) & between(-4096.0, 4096.0, north);
    in_range & (limit * limit <= east * east + north * north)
}

// Whether a distance is far at a limit. Unknown is not, and a NaN is never.
pub fn far(d: Distance, limit: f64) -> bool
    ensures { result ≡ is_far d limit }
{
    match d {
        Distance::Unknown => false,
        Distance::Range(r) => between(limit, 4096.0, r),
        Distance::Offset(o) => offset_far(o, limit),
    }
}

// Whether a reuse limit lies in 0..4096. Where it does not, refusal 18 is given.
pub fn limit_fits(limit: f64) -> bool
    ensures { result ≡ limit_fits limit }
{
    between(0.0, 4096.0, limit)
}

// The distance that C hands over as a kind and two numbers: 0 unknown, 1 range, 2 offset, any other unknown.
pub fn distance_of(kind: u32, a: f64, b: f64) -> Distance
    ensures { result ≡ distance_of kind a b }
{
    match kind {
        1 => Distance::Range(a),
        2 => Distance::Offset(Offset { east: a, north: b }),
        _ => Distance::Unknown,
    }
}

// What this crate claims over its promises.
pub fn claims()
    ensures { Claims }
{}
