// Booked events (scheduler.rs): for each owner the cycle of its event, and the Rust's methods.
#![tactic(auto)]

ghost use Rattle.std.specs.Prelude.{◌≡◌, ◌<◌};
ghost use Rattle.scheduler.specs.Booking.{holding, empty, cycle_of, rebook, cancel, least};

// The cycle of an owner without a booking: a figure that the lent words hold and a query answers, where Rust would write None.
pub const NEVER: u64 = 18446744073709551615;

// The cycles of owners 0 to 7.
#[derive(Clone, Copy)]
pub struct Scheduler {
    pub cycles: [u64; 8],
}

// That an owner is below 8 stands in each contract: it is the length of the array that it indexes. Its type is state's
// `TimerIndex`, and state stands above.
impl Scheduler {
    // No owner has a booking.
    pub fn new() -> Scheduler
        ensures { result ≡ holding empty }
    {
        Scheduler { cycles: [NEVER; 8] }
    }

    // Schedules (or re-schedules) `owner` at `cycle`.
    pub fn at(&mut self, owner: usize, cycle: u64)
        requires { owner < 8 }
        ensures scheduled { self.new ≡ holding (rebook self.old.cycles owner cycle) }
    {
        self.cycles[owner] = cycle;
    }

    pub fn cancel(&mut self, owner: usize)
        requires { owner < 8 }
        ensures { self.new ≡ holding (cancel self.old.cycles owner) }
    {
        self.at(owner, NEVER);
    }

    // Books or rebooks `owner` at `cycle`, or cancels its booking by NEVER. Every booking of the board goes through here.
    pub fn book(&mut self, owner: usize, cycle: u64)
        requires { owner < 8 }
        ensures { self.new ≡ holding (rebook self.old.cycles owner cycle) }
    {
        if cycle == NEVER {
            self.cancel(owner);
        } else {
            self.at(owner, cycle);
        }
    }

    // NEVER for the Rust's None.
    pub fn is_scheduled(&self, owner: usize) -> u64
        requires { owner < 8 }
        ensures { result ≡ cycle_of self.now.cycles owner }
    {
        self.cycles[owner]
    }

    // The Rust's field `next`: the least booked cycle, or NEVER, computed at each call.
    pub fn next(&self) -> u64
        ensures { result ≡ least self.now.cycles }
    {
        self.cycles.iter().fold(NEVER, |low, cycle| low.min(*cycle))
    }
}

// The bookings of a table.
impl From<[u64; 8]> for Scheduler {
    ghost from_gives = { λ cycles s. s ≡ holding cycles };

    fn from(cycles: [u64; 8]) -> Self {
        Self { cycles }
    }
}
