// What a call answers, and the refusals that calls share (document 01's table), lowest number first.
#![tactic(auto)]

ghost use Rattle.std.specs.Prelude.{◌≡◌, List, [], ◌∷◌, ◌<◌, Float, IfOk};
ghost use Rattle.state.specs.View.{view};
ghost use Rattle.book.specs.Book.{places};
ghost use Rattle.book.specs.Lent.{slices_of};
ghost use Rattle.machine.specs.Step.{cycle_astray, odd_size};
ghost use Rattle.machine.specs.Refusals.{first, no_such_index, bad_size, clock_astray, book_full};
ghost use Rattle.answer.specs.Promise.{answer};
ghost use Rattle.answer.specs.Refused.{number_of, refusal_number, told};

use book::LentBook;
use state::{TimerIndex, WORDS};

// The value, the number and the number of entries: 16 bytes, which come back in two registers. The entries are in the lent book.
#[repr(C)]
#[derive(Clone, Copy)]
pub struct Answer {
    pub value: u64,
    pub number: u32,
    pub count: u32,
}

// Why a call changes nothing.
#[derive(Clone, Copy, Debug, PartialEq, Eq)]
pub enum Refusal {
    OutsideLimits,
    NoSuchIndex,
    BadSize,
    BadClock,
    ClockAstray,
    BookFull,
    CounterAstray,
    EventsDue,
    SignalTaken,
}

impl Refusal {
    // The number that an answer gives for it.
    pub fn number(self) -> u32
        ensures { result ≡ number_of self }
    {
        match self {
            Refusal::OutsideLimits => 1,
            Refusal::NoSuchIndex => 2,
            Refusal::BadSize => 3,
            Refusal::BadClock => 4,
            Refusal::ClockAstray => 5,
            Refusal::BookFull => 6,
            Refusal::CounterAstray => 7,
            Refusal::EventsDue => 8,
            Refusal::SignalTaken => 11,
        }
    }
}

// A refused call answers with its number, no value and no entries.
impl From<Result<Answer, Refusal>> for Answer {
    ghost from_gives = { λ r a. a ≡ told r };

    #[inline(always)]
    fn from(outcome: Result<Answer, Refusal>) -> Answer {
        match outcome {
            Ok(answer) => answer,
            Err(refusal) => Answer {
                value: 0,
                number: refusal.number(),
                count: 0,
            },
        }
    }
}

// Served, with a value and no entries.
#[inline(always)]
pub fn served(value: u64) -> Answer
    ensures { result ≡ answer 0 value 0 }
{
    Answer {
        value,
        number: 0,
        count: 0,
    }
}

// Served, with the book's entries.
#[inline(always)]
pub fn entered(book: &LentBook<'_>) -> Answer
    requires { book.now.count < 4294967296 }
    ensures { result ≡ answer 0 0 book.now.count }
{
    Answer {
        count: book.count as u32,
        ..served(0)
    }
}

// A read or write of 1, 2 or 4 bytes is even.
pub fn odd_size(size: u32) -> bool
    ensures { result ≡ odd_size size }
{
    !matches!(size, 1 | 2 | 4)
}

// The cycle is above 2^62 or below that of the last changing call.
pub fn is_astray(words: &[u64; WORDS], cycle: u64) -> bool
    ensures { (x : List Float) → result ≡ cycle_astray (view words.now x) cycle }
{
    cycle > 4611686018427387904 || cycle < state::last_cycle(words)
}

// The timer of a call without a book, or what the call is refused for, the lowest number first.
#[inline(always)]
pub fn check_timer(
    words: &[u64; WORDS],
    index: u32,
    size: u32,
    cycle: u64,
) -> Result<TimerIndex, Refusal>
    ensures index { IfOk result (λ i. i.n ≡ index) }
    ensures refusal { (x : List Float) → refusal_number result ≡ first (no_such_index index (view words.now x).counts.timers ∷ bad_size size ∷ clock_astray (view words.now x) cycle ∷ []) }
{
    let i = state::timer(words, index).ok_or(Refusal::NoSuchIndex)?;
    if odd_size(size) {
        return Err(Refusal::BadSize);
    }
    if is_astray(words, cycle) {
        return Err(Refusal::ClockAstray);
    }
    Ok(i)
}

// The same of a timer's call with a book.
#[inline(always)]
pub fn check_timer_and_book(
    words: &[u64; WORDS],
    index: u32,
    size: u32,
    cycle: u64,
    book: &LentBook<'_>,
) -> Result<TimerIndex, Refusal>
    ensures index { IfOk result (λ i. i.n ≡ index) }
    ensures refusal { (x : List Float) → refusal_number result ≡ first (no_such_index index (view words.now x).counts.timers ∷ bad_size size ∷ clock_astray (view words.now x) cycle ∷ book_full 4 (places (slices_of book.now)) ∷ []) }
{
    let i = check_timer(words, index, size, cycle)?;
    if book.places() < 4 {
        return Err(Refusal::BookFull);
    }
    Ok(i)
}
