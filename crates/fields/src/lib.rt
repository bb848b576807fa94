// Single fields of a timer in the lent words: a write that changes one register stores its word and no more.
// The 8 timers stand first in the words; crate codec says which word of a timer is which field.
// A second way of what regs does by value: by value, with the whole timer loaded and stored, a write takes more than the Rust's time.
// A cycle below 2^63 is a plain number: it is compared, summed and stored, and a type would be put together and taken apart at each call.
#![tactic(auto)]

ghost use Rattle.std.specs.Prelude.{◌≡◌, List, ◌<◌, Float, set};
ghost use Rattle.tim.specs.Timer.{with_count, ccmr_byte};
ghost use Rattle.tim.specs.Count.{at_count};
ghost use Rattle.tim.specs.Change.{with_done};
ghost use Rattle.regs.specs.Regs as R;
ghost use Rattle.state.specs.View.{view};
ghost use Rattle.machine.specs.Board.{timer_at, with_timer};
ghost use Rattle.fields.specs.Field.{with_reg, place_of};

use codec::{TIMER_WORDS, low_32, timer};
use state::{TimerIndex, WORDS};
use tim::{Channel, Inst};

// The registers whose words stand one behind the other, from CR1 on.
#[derive(Clone, Copy)]
pub enum Reg {
    Cr1,
    Cr2,
    Smcr,
    Dier,
    Sr,
    Ccer,
}

impl Reg {
    // Which of them it is.
    fn place(self) -> usize
        ensures { (result ≡ place_of self) × (result < 6) }
    {
        self as usize
    }
}

// A register of timer i.
pub fn set_reg(words: &mut [u64; WORDS], i: TimerIndex, reg: Reg, v: u32)
    ensures { (x : List Float) → view words.new x ≡ with_timer (view words.old x) i.n (with_reg (timer_at (view words.old x) i.n) (place_of reg) v) }
{
    words[i.n * TIMER_WORDS + (timer::CR1 + reg.place())] = v as u64;
}

// Three stores of a channel differ in a word and in what they state: one function would take the word's kind and state a case for each.
// The compare of channel ch as written.
pub fn set_ccr(words: &mut [u64; WORDS], i: TimerIndex, ch: Channel, v: u32)
    ensures { (x : List Float) → view words.new x ≡ with_timer (view words.old x) i.n (R.with_ccr (timer_at (view words.old x) i.n) ch.n v) }
{
    words[i.n * TIMER_WORDS + (timer::CCR + ch.n)] = v as u64;
}

// The compare of channel ch in use.
pub fn set_ccr_act(words: &mut [u64; WORDS], i: TimerIndex, ch: Channel, v: u32)
    ensures { (x : List Float) → view words.new x ≡ with_timer (view words.old x) i.n (R.with_ccr_act (timer_at (view words.old x) i.n) ch.n v) }
{
    words[i.n * TIMER_WORDS + (timer::CCR_ACT + ch.n)] = v as u64;
}

// Whether channel ch's compare is done in this period.
pub fn set_done(words: &mut [u64; WORDS], i: TimerIndex, ch: Channel, on: bool)
    ensures { (x : List Float) → view words.new x ≡ with_timer (view words.old x) i.n (with_done (timer_at (view words.old x) i.n) (set (timer_at (view words.old x) i.n).chan.cc_done ch.n on)) }
{
    words[i.n * TIMER_WORDS + (timer::CC_DONE + ch.n)] = on as u64;
}

// The counter of timer i is cnt at cycle base.
pub fn set_at(words: &mut [u64; WORDS], i: TimerIndex, cnt: u32, base: u64)
    requires { base < 9223372036854775808 }
    ensures { (x : List Float) → view words.new x ≡ with_timer (view words.old x) i.n (with_count (timer_at (view words.old x) i.n) (at_count (timer_at (view words.old x) i.n).count cnt base)) }
{
    words[i.n * TIMER_WORDS + timer::CNT0] = cnt as u64;
    words[i.n * TIMER_WORDS + timer::BASE] = base;
}

// The counter of timer i at its reference.
pub fn cnt0(words: &[u64; WORDS], i: TimerIndex) -> u32
    ensures { (x : List Float) → result ≡ (timer_at (view words.now x) i.n).count.cnt0 }
{
    low_32(words[i.n * TIMER_WORDS + timer::CNT0])
}

// Channel ch's byte of CCMR1 or CCMR2, of its word alone.
pub fn ccmr_byte(words: &[u64; WORDS], i: TimerIndex, ch: Channel) -> u32
    ensures { (x : List Float) → result ≡ ccmr_byte (timer_at (view words.now x) i.n) ch.n }
{
    let w = low_32(words[i.n * TIMER_WORDS + (timer::CCMR + ch.n / 2)]);
    (w >> (8 * (ch.n % 2))) % 256
}

// The fixed parts of timer i.
pub fn inst(words: &[u64; WORDS], i: TimerIndex) -> Inst
    ensures { (x : List Float) → result ≡ (timer_at (view words.now x) i.n).inst }
{
    codec::unpack_inst(words, i.n * TIMER_WORDS)
}

// The number of timer i's enable word, as an index: the gate looks at it in every call.
pub fn en_reg(words: &[u64; WORDS], i: TimerIndex) -> usize
    ensures { (x : List Float) → result ≡ (timer_at (view words.now x) i.n).inst.en_reg }
{
    low_32(words[i.n * TIMER_WORDS + timer::EN_REG]) as usize
}
