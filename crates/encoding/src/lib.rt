// Calls as words of 32 bits (docs/CALLS.md's order): which call they begin with, its arguments and its length.
#![tactic(auto)]

ghost use Rattle.std.specs.Prelude.{◌≡◌, ◌+◌, ◌*◌, ◌<◌, ◌≤◌, length, IfSome, IfNone, MatchResult, ℕ};
ghost use Rattle.std.specs.Float.Ieee as Ieee;
ghost use Rattle.encoding.specs.Encoding as E;
ghost use Rattle.encoding.specs.Operations.{number_of};
ghost use Rattle.encoding.specs.Asked.{asked, lent_places};
ghost use Rattle.setup.specs.Given.{setup_given};
ghost use Rattle.pads.specs.Setting.{set_pin_call};
ghost use Rattle.machine.specs.Call as M;

use clk::ClockTree;
use pads::PinSetting;
use setup::SetUp;

// ---- arguments

// Word k, 0 behind the end.
#[tactic(auto, unfolding(crate::specs::Encoding::word))]
fn word(calls: &[u32], k: usize) -> u32
    ensures { result ≡ E.word calls.now k }
{
    calls.get(k).copied().unwrap_or(0)
}

// Two words, low then high. `line` joins them too: no plainer as one, since neither crate uses the other.
#[tactic(auto, unfolding(crate::specs::Encoding::word64))]
fn word64(calls: &[u32], k: usize) -> u64
    requires { k < 4294967296 }
    ensures { result ≡ E.word64 calls.now k }
{
    let low = word(calls, k);
    let high = word(calls, k + 1);
    u64::from(low) + u64::from(high) * 4294967296
}

// The float of 64 bits, tested first because `from_bits` takes none that is not-a-number: exponent 2047 with other digits than 0 is not-a-number.
fn float(bits: u64) -> f64
    ensures { result ≡ Ieee.of_bits Ieee.binary64 bits }
{
    let exponent = bits % 9223372036854775808 / 4503599627370496;
    let digits = bits % 4503599627370496;
    if exponent != 2047 || digits == 0 {
        return f64::from_bits(bits);
    }
    f64::NAN
}

#[tactic(auto, unfolding(crate::specs::Encoding::real64))]
fn real64(calls: &[u32], k: usize) -> f64
    requires { k < 4294967296 }
    ensures { result ≡ E.real64 calls.now k }
{
    float(word64(calls, k))
}

// ---- a call's words

// What a call asks for.
#[derive(Clone, Copy)]
pub enum Operation {
    SetUp,
    Clock,
    Enable,
    SetPin,
    DrivePin,
    ResetPins,
    Read,
    Write,
    Peek,
    Reset,
    Deliver,
    Booked,
    Next,
    Level,
    Volts,
    Line,
    Time,
    ClearPending,
    Why,
}

// Of a call's first word, which is its number in docs/CALLS.md; the error is a number that is no call's. `text::Command` has these numbers too: no plainer
// as one, since it names what asks the board nothing besides, and neither crate uses the other.
impl TryFrom<u32> for Operation {
    type Error = u32;

    ghost try_from_gives = { λ op r. MatchResult r (λ operation. op ≡ number_of operation) (λ _. 18 < op) };

    fn try_from(op: u32) -> Result<Self, u32> {
        match op {
            0 => Ok(Operation::SetUp),
            1 => Ok(Operation::Clock),
            2 => Ok(Operation::Enable),
            3 => Ok(Operation::SetPin),
            4 => Ok(Operation::DrivePin),
            5 => Ok(Operation::ResetPins),
            6 => Ok(Operation::Read),
            7 => Ok(Operation::Write),
            8 => Ok(Operation::Peek),
            9 => Ok(Operation::Reset),
            10 => Ok(Operation::Deliver),
            11 => Ok(Operation::Booked),
            12 => Ok(Operation::Next),
            13 => Ok(Operation::Level),
            14 => Ok(Operation::Volts),
            15 => Ok(Operation::Line),
            16 => Ok(Operation::Time),
            17 => Ok(Operation::ClearPending),
            18 => Ok(Operation::Why),
            _ => Err(op),
        }
    }
}

// A call that is lent no book, with its arguments.
#[derive(Clone, Copy)]
pub enum Plain<'a> {
    SetUp(SetUp<'a>),
    Clock {
        tree: ClockTree,
        cycle: u64,
    },
    Enable {
        word: u32,
        value: u32,
    },
    ClearPending {
        irq: u32,
    },
    Read {
        timer: u32,
        offset: u32,
        size: u32,
        cycle: u64,
    },
    Peek {
        timer: u32,
        offset: u32,
        cycle: u64,
    },
    Booked {
        timer: u32,
    },
    Next,
    Level {
        pin: u32,
    },
    Volts {
        pin: u32,
    },
    Line {
        irq: u32,
    },
    Time {
        cycle: u64,
    },
    Why {
        pin: u32,
        cycle: u64,
    },
}

// One that is lent a book, with its arguments before the cycle.
#[derive(Clone, Copy)]
pub enum BookCall {
    SetPin {
        pin: u32,
        setting: PinSetting,
    },
    DrivePin {
        pin: u32,
        kind: u32,
        volts: f64,
    },
    ResetPins,
    Write {
        timer: u32,
        offset: u32,
        size: u32,
        value: u32,
    },
    Reset {
        timer: u32,
    },
    Deliver {
        timer: u32,
    },
}

// A call, with the places that it is lent.
#[derive(Clone, Copy)]
pub enum Call<'a> {
    Plain(Plain<'a>),
    Lent {
        call: BookCall,
        cycle: u64,
        places: u64,
    },
}

impl Call<'_> {
    // The places that it is lent: a call without a book is lent none.
    pub fn places(self) -> u64
        ensures { result ≡ lent_places self.entry }
    {
        match self {
            Call::Plain(_) => 0,
            Call::Lent { places, .. } => places,
        }
    }
}

// How many words a set-up has: ten, seven a timer, and the signal table.
fn set_up_size(calls: &[u32]) -> usize
    ensures { result ≡ 10 + E.word calls.now 7 * 7 + E.word calls.now 8 }
{
    let timers = word(calls, 7) as usize;
    let table = word(calls, 8) as usize;
    10 + timers * 7 + table
}

// How many words the call has that they begin with. Beside `decoded`: the parts of a set-up are cut out only where all its words are there.
#[tactic(auto, unfolding(crate::specs::Encoding::size_of))]
fn size_of(operation: Operation, calls: &[u32]) -> usize
    requires { E.word calls.now 0 ≡ number_of operation }
    ensures { result ≡ E.size_of (E.word calls.now 0) calls.now }
{
    match operation {
        Operation::SetUp => set_up_size(calls),
        Operation::Clock => 13,
        Operation::SetPin => 12,
        Operation::DrivePin | Operation::Write => 9,
        Operation::Read | Operation::Reset | Operation::Deliver => 6,
        Operation::ResetPins | Operation::Peek => 5,
        Operation::Why => 4,
        Operation::Enable | Operation::Time => 3,
        Operation::Booked
        | Operation::Level
        | Operation::Volts
        | Operation::Line
        | Operation::ClearPending => 2,
        Operation::Next => 1,
    }
}

fn set_up_in(calls: &[u32]) -> SetUp<'_>
    requires { 10 + E.word calls.now 7 * 7 + E.word calls.now 8 ≤ length calls.now }
    ensures { setup_given result ≡ E.setup_at calls.now }
{
    let start = 10 + word(calls, 7) as usize * 7;
    let end = start + word(calls, 8) as usize;
    SetUp {
        hz: real64(calls, 1),
        vcc: real64(calls, 3),
        pins: word(calls, 5),
        lines: word(calls, 6),
        manual: word(calls, 9),
        timers: &calls[10..start],
        table: &calls[start..end],
    }
}

fn tree_in(calls: &[u32]) -> ClockTree
    ensures { result ≡ E.tree_at calls.now }
{
    ClockTree {
        sysclk_hz: real64(calls, 1),
        hclk_hz: real64(calls, 3),
        ppre1: word(calls, 5),
        ppre2: word(calls, 6),
        ppre3: word(calls, 7),
        ppre4: word(calls, 8),
        tim1: word(calls, 9),
        tim2: word(calls, 10),
    }
}

fn setting_in(calls: &[u32]) -> PinSetting
    ensures { (pin cycle places : ℕ) → set_pin_call pin result cycle places ≡ M.set_pin pin (E.word calls.now 2) (E.word calls.now 3) (E.word calls.now 4) (E.word calls.now 5) (E.word calls.now 6) (E.word calls.now 7) cycle places }
{
    PinSetting {
        mode: word(calls, 2),
        open_drain: word(calls, 3),
        out: word(calls, 4),
        pullup: word(calls, 5),
        pulldown: word(calls, 6),
        function: word(calls, 7),
    }
}

// The call that they begin with, whole.
#[tactic(auto, unfolding(crate::specs::Encoding::call_with, crate::specs::Encoding::book_of, crate::specs::Encoding::book_call, crate::specs::Encoding::change_call, crate::specs::Encoding::question_call, crate::specs::Encoding::size_of))]
fn decoded(operation: Operation, calls: &[u32]) -> Call<'_>
    requires operation { E.word calls.now 0 ≡ number_of operation }
    requires whole { E.size_of (E.word calls.now 0) calls.now ≤ length calls.now }
    ensures { asked result ≡ E.call_of calls.now }
{
    match operation {
        Operation::SetUp => Call::Plain(Plain::SetUp(set_up_in(calls))),
        Operation::Clock => Call::Plain(Plain::Clock {
            tree: tree_in(calls),
            cycle: word64(calls, 11),
        }),
        Operation::Enable => Call::Plain(Plain::Enable {
            word: word(calls, 1),
            value: word(calls, 2),
        }),
        Operation::SetPin => Call::Lent {
            call: BookCall::SetPin {
                pin: word(calls, 1),
                setting: setting_in(calls),
            },
            cycle: word64(calls, 8),
            places: word64(calls, 10),
        },
        Operation::DrivePin => Call::Lent {
            call: BookCall::DrivePin {
                pin: word(calls, 1),
                kind: word(calls, 2),
                volts: real64(calls, 3),
            },
            cycle: word64(calls, 5),
            places: word64(calls, 7),
        },
        Operation::ResetPins => Call::Lent {
            call: BookCall::ResetPins,
            cycle: word64(calls, 1),
            places: word64(calls, 3),
        },
        Operation::Read => Call::Plain(Plain::Read {
            timer: word(calls, 1),
            offset: word(calls, 2),
            size: word(calls, 3),
            cycle: word64(calls, 4),
        }),
        Operation::Write => Call::Lent {
            call: BookCall::Write {
                timer: word(calls, 1),
                offset: word(calls, 2),
                size: word(calls, 3),
                value: word(calls, 4),
            },
            cycle: word64(calls, 5),
            places: word64(calls, 7),
        },
        Operation::Peek => Call::Plain(Plain::Peek {
            timer: word(calls, 1),
            offset: word(calls, 2),
            cycle: word64(calls, 3),
        }),
        Operation::Reset => Call::Lent {
            call: BookCall::Reset {
                timer: word(calls, 1),
            },
            cycle: word64(calls, 2),
            places: word64(calls, 4),
        },
        Operation::Deliver => Call::Lent {
            call: BookCall::Deliver {
                timer: word(calls, 1),
            },
            cycle: word64(calls, 2),
            places: word64(calls, 4),
        },
        Operation::Booked => Call::Plain(Plain::Booked {
            timer: word(calls, 1),
        }),
        Operation::Next => Call::Plain(Plain::Next),
        Operation::Level => Call::Plain(Plain::Level {
            pin: word(calls, 1),
        }),
        Operation::Volts => Call::Plain(Plain::Volts {
            pin: word(calls, 1),
        }),
        Operation::Line => Call::Plain(Plain::Line {
            irq: word(calls, 1),
        }),
        Operation::Time => Call::Plain(Plain::Time {
            cycle: word64(calls, 1),
        }),
        Operation::ClearPending => Call::Plain(Plain::ClearPending {
            irq: word(calls, 1),
        }),
        Operation::Why => Call::Plain(Plain::Why {
            pin: word(calls, 1),
            cycle: word64(calls, 2),
        }),
    }
}

// The call that the words begin with and how many of them it has, if they are a call and it is not cut short.
#[tactic(auto, unfolding(crate::specs::Encoding::len_of, crate::specs::Encoding::size_of))]
pub fn first_call(calls: &[u32]) -> Option<(Call<'_>, usize)>
    ensures call { IfSome result (λ r. (asked r.0 ≡ E.call_of calls.now) × (r.1 ≡ E.len_of calls.now) × (0 < r.1)) }
    ensures none { IfNone result (E.len_of calls.now ≡ 0) }
{
    let operation = Operation::try_from(word(calls, 0)).ok()?;
    let size = size_of(operation, calls);
    if calls.len() < size {
        return None;
    }
    Some((decoded(operation, calls), size))
}
