// The book that a call is lent: four slices, filled from place 0. Every entry is written here.
#![tactic(auto)]

ghost use Rattle.std.specs.Prelude.{◌≡◌};
ghost use Prim.Native.Nat.{◌+◌, ◌≤◌};
ghost use Rattle.book.specs.Book.{put, puts, entry_of, places, Room};
ghost use Rattle.book.specs.Lent.{slices_of, filled, SameSlices};

use gpio::Edge;

// The lent slices, and how many of their places hold an entry.
#[derive(Drop)]
pub struct LentBook<'a> {
    pub pins: &'a mut [u8],
    pub levels: &'a mut [u8],
    pub cycles: &'a mut [u64],
    pub sources: &'a mut [u8],
    pub count: usize,
}

impl LentBook<'_> {
    // The book's length: the shortest of the four.
    #[inline(always)]
    pub fn places(&self) -> usize
        ensures { result ≡ places (slices_of self.now) }
    {
        self.pins
            .len()
            .min(self.levels.len())
            .min(self.cycles.len())
            .min(self.sources.len())
    }

    // Writes the next entry. Its source may be any byte: `append` gives those that a level has.
    #[inline(always)]
    pub fn enter(&mut self, pin: u8, level: u8, source: u8, cycle: u64)
        requires { Room (self.old.count + 1) (slices_of self.old) }
        ensures same_slices { SameSlices self.old self.new }
        ensures entered { filled self.new ≡ put (filled self.old) (record { pin = pin; level = level; cycle = cycle; source = source }) }
    {
        let n = self.count;
        self.pins[n] = pin;
        self.levels[n] = level;
        self.sources[n] = source;
        self.count = writer::append(self.cycles, n, cycle);
    }

    // Writes a level change as the next entry.
    #[tactic(auto, unfolding(crate::specs::Book::entry_of, crate::specs::Book::puts))]
    #[inline(always)]
    pub fn append(&mut self, change: Option<Edge>, cycle: u64)
        requires { Room (self.old.count + 1) (slices_of self.old) }
        ensures same_slices { SameSlices self.old self.new }
        ensures entered { filled self.new ≡ puts (filled self.old) (entry_of cycle change) }
        ensures at_most_one { self.new.count ≤ self.old.count + 1 }
    {
        if let Some(edge) = change {
            self.enter(edge.pin, edge.level, edge.source.number(), cycle);
        }
    }
}
