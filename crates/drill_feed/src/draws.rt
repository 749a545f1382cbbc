// The numbers that are drawn one after another.
ghost use Rattle.std.specs.Prelude.{◌≡◌, ◌<◌, ◌^◌};
ghost use Rattle.drill_feed.specs.Workload.{drawn, next_draw};

// What was drawn last, or the seed where nothing was.
#[derive(Clone, Copy, Debug)]
pub(crate) struct Draws {
    pub(crate) last: u32,
    pub(crate) ghost small: { last < 2 ^ 31 },
}

impl Draws {
    // The next number.
    pub(crate) fn next(&mut self) -> u32
        ensures value { result ≡ next_draw self.old.last }
        ensures last { self.new.last ≡ result }
        ensures small { result < 2 ^ 31 }
    {
        let product = u64::from(self.last) * 1_103_515_245 + 12_345;
        let next = (product % (1 << 31)) as u32;
        *self = Draws { last: next };
        next
    }

    // Draws so many numbers that nobody takes.
    pub(crate) fn skip(&mut self, count: u32)
        ensures { self.new.last ≡ drawn self.old.last count }
    {
        for made in 0..count {
            self.next();
        }
    }
}
