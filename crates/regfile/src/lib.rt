// The short ways of compares and CR1 in the lent words: the fields that a write changes are stored, and no others.
// A second way of what regs does by value: by value a write takes more than the Rust's time.
// A cycle below 2^63 is a plain number: it is compared, summed and stored, and a type would be put together and taken apart at each call.
#![tactic(auto)]

ghost use Rattle.std.specs.Prelude.{◌≡◌, true, false, List, ℕ, ◌<◌, Float, set, is_some};
ghost use Rattle.tim.specs.Count.{synced};
ghost use Rattle.tim.specs.Timer.{with_cr1};
ghost use Rattle.tim.specs.Change.{with_done, behind_of};
ghost use Rattle.regs.specs.Regs as R;
ghost use Rattle.state.specs.View.{view};
ghost use Rattle.machine.specs.Board.{timer_at, with_timer};
ghost use Rattle.regfile.specs.Course.{same_course};

use fields::Reg;
use state::{TimerIndex, WORDS};
use tim::Channel;

// ---- compares

// Timer i's reference moved to its last step at or before a cycle. A stopped timer keeps its own.
pub fn sync(words: &mut [u64; WORDS], i: TimerIndex, cycle: u64)
    requires { cycle < 9223372036854775808 }
    ensures { (x : List Float) → view words.new x ≡ with_timer (view words.old x) i.n (synced (timer_at (view words.old x) i.n) cycle) }
{
    let t = state::load_timer(words, i);
    if t.count.running {
        let s = t.sync(cycle);
        fields::set_at(words, i, s.count.cnt0, s.count.base);
    }
}

// Channel ch is done if its compare ccr lies behind the counter.
fn settle_done(words: &mut [u64; WORDS], i: TimerIndex, ch: Channel, ccr: u32)
    ensures { (x : List Float) → view words.new x ≡ with_timer (view words.old x) i.n (with_done (timer_at (view words.old x) i.n) (set (timer_at (view words.old x) i.n).chan.cc_done ch.n (behind_of (timer_at (view words.old x) i.n) ccr))) }
{
    let t = state::load_timer(words, i);
    let done = t.is_past(ccr);
    fields::set_done(words, i, ch, done);
}

// A write of CCR1 to CCR4, and the count to drive the outputs at if it acts at once: the reference's, since the timer is synced.
pub fn write_ccr(
    words: &mut [u64; WORDS],
    i: TimerIndex,
    ch: Channel,
    v: u32,
    cycle: u64,
) -> Option<u32>
    requires { cycle < 9223372036854775808 }
    ensures board { (x : List Float) → view words.new x ≡ with_timer (view words.old x) i.n (R.ccr_written (timer_at (view words.old x) i.n) ch.n v cycle).timer }
    ensures drive { (x : List Float) → result ≡ (R.ccr_written (timer_at (view words.old x) i.n) ch.n v cycle).drive }
{
    let t = state::load_timer(words, i);
    let ccr = v & t.max();
    let mode = fields::ccmr_byte(words, i, ch);
    sync(words, i, cycle);
    fields::set_ccr(words, i, ch, ccr);
    if mode / 8 % 2 == 1 {
        return None;
    }
    fields::set_ccr_act(words, i, ch, ccr);
    settle_done(words, i, ch, ccr);
    Some(fields::cnt0(words, i))
}

// ---- CR1

// Neither CEN nor DIR changes.
fn stays(old: u32, new: u32) -> bool
    ensures { result ≡ same_course old new }
{
    old % 2 == new % 2 && old / 16 % 2 == new / 16 % 2
}

// CR1 of a timer that the write neither starts, stops nor turns: CR1 and the reference are stored.
fn write_steady(words: &mut [u64; WORDS], i: TimerIndex, new: u32, cycle: u64)
    requires { cycle < 9223372036854775808 }
    ensures { (x : List Float) → view words.new x ≡ with_timer (view words.old x) i.n (with_cr1 (synced (timer_at (view words.old x) i.n) cycle) new) }
{
    sync(words, i, cycle);
    fields::set_reg(words, i, Reg::Cr1, new);
}

// A write of CR1 that leaves CEN and DIR. Any other is not done: false.
pub fn write_cr1(words: &mut [u64; WORDS], i: TimerIndex, v: u32, cycle: u64) -> bool
    requires { cycle < 9223372036854775808 }
    ensures counts_on { result ≡ true → (x : List Float) (div : ℕ) → R.astray (R.cr1_written (timer_at (view words.old x) i.n) v cycle div) ≡ false }
    ensures board { result ≡ true → (x : List Float) (div : ℕ) → view words.new x ≡ with_timer (view words.old x) i.n (R.cr1_written (timer_at (view words.old x) i.n) v cycle div) }
    ensures words_unchanged { result ≡ false → words.new ≡ words.old }
{
    let t = state::load_timer(words, i);
    let new = regs::kept_cr1(t, v);
    let steady = stays(t.regs.cr1, new);
    if steady {
        write_steady(words, i, new, cycle);
    }
    steady
}
