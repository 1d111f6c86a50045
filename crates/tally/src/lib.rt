// The tally of accepted and refused calls.
#![tactic(auto)]

ghost use Rattle.std.specs.Prelude.{◌≡◌, cond};
ghost use Rattle.tally.specs.Calls.{one_more, counted};
ghost use Rattle.tally.specs.Claims.{Claims};

// How many calls were accepted and how many refused, each up to the largest u32. It is laid out as in C: a C host lends it as it is.
#[repr(C)]
#[derive(Clone, Copy)]
pub struct Tally {
    pub accepted: u32,
    pub refused: u32,
}

// One more, up to the largest u32, where the call counts here. A sum takes no branch: which calls are refused, no processor can guess.
fn raised(n: u32, counts: bool) -> u32
    ensures { result ≡ cond counts (one_more n) n }
{
    n.saturating_add(u32::from(counts))
}

// The tally after a call.
fn counted(t: Tally, refusal: u32) -> Tally
    ensures { result ≡ counted t refusal }
{
    let accepted = refusal == 0;
    Tally {
        accepted: raised(t.accepted, accepted),
        refused: raised(t.refused, !accepted),
    }
}

// Counts a call by its refusal number, 0 being accepted: the number that a C host was told, whatever it is.
pub fn count(tally: &mut Tally, refusal: u32)
    ensures { tally.new ≡ counted tally.old refusal }
{
    *tally = counted(*tally, refusal);
}

// What this crate claims over its promises.
pub fn claims()
    ensures { Claims }
{}
