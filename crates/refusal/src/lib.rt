// Why a call is refused, by document 01's numbers.
#![tactic(auto)]

ghost use Rattle.std.specs.Prelude.{◌≡◌};
ghost use Rattle.refusal.specs.Refusals.{number_of};
ghost use Rattle.refusal.specs.Claims.{Claims};

// Document 01's refusals, each with its number there. What each of them is about, include/gemthatch.h says too, under the same name.
#[derive(Clone, Copy, Debug, PartialEq, Eq)]
pub enum Refusal {
    Size = 1,
    ExtendedId = 2,
    Code = 3,
    Roff = 4,
    Bs = 5,
    Bo = 6,
    RateList = 7,
    Address = 8,
    Field = 9,
    Figure = 10,
    NotSound = 11,
    Behind = 12,
    Late = 13,
    Rate = 14,
    NoSuperframes = 15,
    Held = 16,
    Full = 17,
    Limit = 18,
    SearchRange = 19,
    Wanted = 20,
    NoStart = 21,
    Parameter = 22,
    Entry = 23,
    Early = 24,
    Map = 25,
    Destination = 34,
}

// The number of a refusal, which `as` reads off its case.
impl From<Refusal> for u32 {
    ghost from_gives = { λ e n. n ≡ number_of e };

    fn from(e: Refusal) -> u32 {
        e as u32
    }
}

// What this crate claims over its promises.
pub fn claims()
    ensures { Claims }
{}
