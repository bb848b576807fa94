// The delivery of a timer's due events over the lent state, their level changes into the lent book (tim.rs, on_event).
// A cycle below 2^63 is a plain number: it is compared, summed and stored, and a type would be put together and taken apart at each call.
// `Fit` of a timer is asked for: no field of it, as tim says.
#![tactic(auto)]

ghost use Rattle.std.specs.Prelude.{◌≡◌, cond, List, ◌<◌, ◌≤◌, eqb, Float};
ghost use Rattle.tim.specs.Timer.{Fit, ccr_in_use};
ghost use Rattle.tim.specs.Change.{compared};
ghost use Rattle.tim.specs.Next.{next_event};
ghost use Rattle.book.specs.Book.{places, Room};
ghost use Rattle.book.specs.Lent.{slices_of, filled, SameSlices};
ghost use Rattle.state.specs.Lent.{lent_board, SameLoan};
ghost use Rattle.state.specs.View.{view};
ghost use Rattle.state.specs.Board.{with_inst};
ghost use Rattle.machine.specs.Board.{timer_at, with_timer};
ghost use Rattle.machine.specs.Deliver.{applied, count_at, handled, most_events, delivered};
ghost use Rattle.delivery.specs.Delivery.{OfFour, number_of, verdict_of, Ends, Delivers};

use book::LentBook;
use state::{LentBoard, TimerIndex, WORDS};
use tim::{CH1, CH2, CH3, CH4, Channel, Divider, Due, Next, Timer};

// Why a delivery stops: nothing more is due, or more than it may handle or has places for.
#[derive(Clone, Copy)]
pub enum Stop {
    Done,
    Backlog,
}

impl Stop {
    // The number in a call's answer.
    pub fn number(self) -> u32
        ensures { result ≡ number_of self }
    {
        match self {
            Stop::Done => 0,
            Stop::Backlog => 8,
        }
    }
}

// What a delivery answers: why it stopped, and the events handled. The entries made are in the book.
#[derive(Clone, Copy)]
pub struct Delivered {
    pub stop: Stop,
    pub events: u64,
}

// The same, with the timer that the events leave and what is due next.
#[derive(Clone, Copy)]
pub struct Ran {
    pub timer: Timer,
    pub due: Due,
    pub delivered: Delivered,
}

// Whether the delivery stops at an event due at `at`; without an answer the event is handled.
fn verdict(at: u64, cycle: u64, events: u64, left: usize) -> Option<Stop>
    ensures { result ≡ verdict_of at cycle events left }
{
    if at > cycle {
        return Some(Stop::Done);
    }
    if events >= 100001 || left < 4 {
        return Some(Stop::Backlog);
    }
    None
}

// A compare event, the channel written out: a timer of constant places stays in registers. By one call with the channel an event takes half as long again.
// It and `apply` are compiled into the loop whole, without being compiled by themselves first: so a delivery of half an event takes a twentieth less.
#[inline(always)]
fn compare(t: Timer, ch: Channel) -> Timer
    ensures { result ≡ compared t ch.n }
{
    match ch.n {
        0 => t.compare(CH1),
        1 => t.compare(CH2),
        2 => t.compare(CH3),
        _ => t.compare(CH4),
    }
}

// The compare value of channel ch in use, written out the same way.
fn compare_value(t: Timer, ch: Channel) -> u32
    ensures { result ≡ ccr_in_use t ch.n }
{
    let act = t.chan.ccr_act;
    match ch.n {
        0 => act[0],
        1 => act[1],
        2 => act[2],
        _ => act[3],
    }
}

// The timer after an event at its due cycle.
#[inline(always)]
fn apply(t: Timer, e: Next, at: u64, div: Divider) -> Timer
    requires { (OfFour e) × (Fit t) }
    ensures { result ≡ applied t e at div.n }
{
    match e {
        Next::Update => t.update(at, div),
        Next::Compare(n) => compare(t, Channel { n }),
    }
}

// The count at an event, of the timer that it leaves.
fn count_at(t: Timer, e: Next) -> u32
    requires { OfFour e }
    ensures { result ≡ count_at t e }
{
    match e {
        Next::Update => t.count.cnt0,
        Next::Compare(n) => compare_value(t, Channel { n }),
    }
}

// Handles the events of timer t that are due at cycle, each at its own due cycle.
#[inline(always)]
fn run(
    board: &mut LentBoard<'_>,
    book: &mut LentBook<'_>,
    timer: Timer,
    div: Divider,
    cycle: u64,
) -> Ran
    requires timer { (Fit timer) × (1 ≤ div.n) × (cycle < 9223372036854775808) }
    requires empty { book.old.count ≡ 0 }
    ensures same_loan { SameLoan board.old board.new }
    ensures same_slices { SameSlices book.old book.new }
    ensures ends { Ends (handled most_events cycle div.n (places (slices_of book.old)) timer (lent_board board.old).pads) (lent_board board.old) (lent_board board.new) (filled book.old) (filled book.new) result }
    ensures fit { (Fit result.timer) × (result.due ≡ next_event result.timer) × (Room book.new.count (slices_of book.old)) × (book.new.count ≤ 400004) }
{
    let room = book.places();
    let mut t = timer;
    let mut events: u64 = 0;
    // The papers' form: the next event is taken apart by let else, and the loop ends by what it returns.
    loop {
        let due = t.next_event();
        let Due::At(at, e) = due else {
            return Ran {
                timer: t,
                due,
                delivered: Delivered {
                    stop: Stop::Done,
                    events,
                },
            };
        };
        if let Some(stop) = verdict(at, cycle, events, room - book.count) {
            return Ran {
                timer: t,
                due,
                delivered: Delivered { stop, events },
            };
        }
        t = apply(t, e, at, div);
        let cnt = count_at(t, e);
        outputs::drive_timer(board, book, t, cnt, at);
        events += 1;
    }
}

// Stores timer i as so many events leave it, but for what set-up fixed; without one it is as it was.
fn store(words: &mut [u64; WORDS], i: TimerIndex, t: Timer, events: u64)
    requires { Fit t }
    ensures { (x : List Float) → view words.new x ≡ cond (eqb events 0) (view words.old x) (with_timer (view words.old x) i.n (with_inst t (timer_at (view words.old x) i.n).inst)) }
{
    if events == 0 {
        return;
    }
    state::store_live(words, i, t);
}

// Delivers timer i's events that are due at cycle; then its interrupt line follows and its next event is booked. The book is filled from place 0.
#[inline(always)]
pub fn deliver(
    board: &mut LentBoard<'_>,
    book: &mut LentBook<'_>,
    i: TimerIndex,
    cycle: u64,
) -> Delivered
    requires { cycle < 9223372036854775808 }
    ensures same_loan { SameLoan board.old board.new }
    ensures same_slices { SameSlices book.old book.new }
    ensures delivers { Delivers (delivered (lent_board board.old) i.n cycle (places (slices_of book.old))) (lent_board board.old) i.n cycle (lent_board board.new) result book.new.count (slices_of book.old) (slices_of book.new) }
    ensures count_bound { book.new.count ≤ 400004 }
{
    book.count = 0;
    let t = state::load_timer(board.words, i);
    let div = context::divider(board.seen(), t);
    let r = run(board, book, t, div, cycle);
    store(board.words, i, r.timer, r.delivered.events);
    context::settle_line(board.words, i, r.timer);
    context::book_due(board.words, i, r.due, cycle);
    r.delivered
}
