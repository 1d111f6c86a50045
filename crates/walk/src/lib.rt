// A walk over a table: a view holds the lent memory, and hands out record after record, in order, and then no more.
#![tactic(auto, unfolding(crate::specs::Walk::begun, crate::specs::Walk::to_hand_out, crate::specs::Walk::placed, octets::specs::Refusals::answer))]

ghost use Rattle.std.specs.Prelude.{◌≡◌};
ghost use Rattle.std.specs.Iterator.{item_count};
ghost use Rattle.refusal.specs.Refusals.{Tells};
ghost use Rattle.table.specs.Memory.{channel};
ghost use Rattle.walk.specs.Walk.{begun, ahead, placed, stepped, record_at};
ghost use Rattle.walk.specs.Claims.{Claims};

use record::Rec;
use refusal::Refusal;
use table::State;

// The lent memory, the number of the next record, and how many records there are.
#[derive(Clone, Copy)]
pub struct View<'a> {
    pub memory: &'a [u8],
    pub next: u32,
    pub count: u32,
}

// Begins a walk on a table and its state. Refused 11.
pub fn begin(s: State, memory: &[u8]) -> Result<View<'_>, Refusal>
    ensures { Tells result (begun s memory.entry).refusal (begun s memory.entry).view }
{
    if !table::is_sound(s, memory) {
        return Err(Refusal::NotSound);
    }
    Ok(View {
        memory,
        next: 0,
        count: s.count,
    })
}

impl<'a> View<'a> {
    // Makes record i the next.
    pub fn skip_to(&mut self, i: u32)
        ensures { self.new ≡ placed self.old i }
    {
        self.next = i;
    }
}

// Hands out the next record, or says that there is no more.
impl<'a> Iterator for View<'a> {
    type Item = Rec;

    ghost next_gives = { λ old r new. (r ≡ (stepped old).handed) × (new ≡ (stepped old).view) };

    ghost remaining = { item_count ahead };

    fn next(&mut self) -> Option<Rec> {
        let i = self.next as usize;
        if record::held_count(self.memory, self.count as usize) <= i {
            return None;
        }
        self.next += 1;
        Some(record::load(self.memory, i))
    }
}

// ---- for everyone else

// What a walk hands out as record i, from plain parameters. Refused 11.
pub fn record_at(s: State, memory: &[u8], i: u32) -> Result<Option<Rec>, Refusal>
    ensures { Tells result (record_at (channel s memory.now) i).refusal (record_at (channel s memory.now) i).handed }
{
    let mut view = begin(s, memory)?;
    view.skip_to(i);
    Ok(view.next())
}

// What this crate claims over its promises.
pub fn claims()
    ensures { Claims }
{}
