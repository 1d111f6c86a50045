// Blocks of slots, one after the other at a spacing. In a file of its own, as the definitions that lib.rt imports name the type.
ghost use Rattle.std.specs.Prelude.{◌≡◌, ◌+◌, ◌-◌, ◌*◌, ◌<◌, ◌≤◌};

// Blocks of so many slots each, at least one. They end so early that sums of their numbers fit.
#[derive(Clone, Copy)]
pub struct Series {
    pub start: u64,
    pub spacing: u32,
    pub blocks: u8,
    pub length: u8,
    ghost some: { 0 < blocks },
    ghost early: { start + blocks * spacing ≤ 2199023255552 },
}

impl Series {
    // How many slots there are from the start of the first block to the end of the last.
    pub(crate) fn run(self) -> u64
        ensures { (result ≡ (self.blocks - 1) * self.spacing + self.length) × (result ≤ 1095216660480) }
    {
        (u64::from(self.blocks) - 1) * u64::from(self.spacing) + u64::from(self.length)
    }
}
