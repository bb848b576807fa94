// The writer of the lent book: it holds the slice of cycles, with the fill count. A crate of its own, since what a struct that holds a lent slice leaves in
// it is known only where it is made and ended by one call: `book` appends by such a call, whose parameters are plain.
#![tactic(auto)]

ghost use Rattle.std.specs.Prelude.{◌≡◌, ◌<◌, ◌+◌, length, set};
ghost use Rattle.writer.specs.Filled.{writing, filled};

#[derive(Drop)]
pub struct Writer<'a> {
    pub cycles: &'a mut [u64],
    pub n: usize,
}

// Stores a cycle at a place; the next place.
fn put_at(places: &mut [u64], at: usize, cycle: u64) -> usize
    requires { at < length places.old }
    ensures { (result ≡ at + 1) × (places.new ≡ set places.old at cycle) }
{
    places[at] = cycle;
    at + 1
}

impl<'a> Writer<'a> {
    // A writer of a book with n entries.
    pub fn new(cycles: &'a mut [u64], n: usize) -> Writer<'a>
        ensures { result ≡ writing cycles.entry n }
    {
        Writer { cycles, n }
    }

    // One more cycle. The writer is handed back.
    pub fn put(self, cycle: u64) -> Writer<'a>
        requires { self.n < length self.cycles.now }
        ensures { result ≡ filled self.entry cycle }
    {
        // Read first: beside the reborrow the check wants a variable.
        let n = self.n;
        let next = put_at(&mut *self.cycles, n, cycle);
        Writer {
            cycles: self.cycles,
            n: next,
        }
    }

    // One more cycle, and the writer ends: how many entries there are now.
    fn put_last(self, cycle: u64) -> usize
        requires { self.n < length self.cycles.now }
        ensures { (result ≡ self.entry.n + 1) × (self.exit.0.now ≡ set self.entry.cycles.now self.entry.n cycle) }
    {
        let n = self.n;
        put_at(&mut *self.cycles, n, cycle)
    }

    // The writer ends: how many entries there are, and the slice is as it was.
    pub fn count(self) -> usize
        ensures { (result ≡ self.entry.n) × (self.exit.0.now ≡ self.entry.cycles.now) }
    {
        self.n
    }
}

// One more cycle in a book with n entries; the next place. Every cycle of the book is written through here.
pub fn append(cycles: &mut [u64], n: usize, cycle: u64) -> usize
    requires { n < length cycles.old }
    ensures { (result ≡ n + 1) × (cycles.new ≡ set cycles.old n cycle) }
{
    // Made in place and ended by one call: what a writer that came back from a call leaves in the slice is not known to the check.
    let w = Writer { cycles, n };
    w.put_last(cycle)
}
