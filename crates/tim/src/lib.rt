// A general-purpose timer by value: the Rust's periph/tim.rs, without its registers (crate regs). It knows nothing of
// pins, lines or booking. Two facts stand in the contracts of many methods: a timer is in its bounds (`Fit`, of which more at `Timer`); a cycle is below
// 2^63, so that sums of cycles fit. A cycle has no type: a call is checked against 2^62, and a cycle is summed with and compared to plain numbers (the base,
// an event's cycle, which may lie above), so that each method would take a type apart and each call put it together: no plainer.
// A bit of a register is a remainder (`cr1 / 16 % 2`) and no mask: the definitions are over numbers (`is_set 4 cr1`), and `&` would want a law more.
// An output-compare mode is a number: a lent word holds any of the eight, and names would be the manual's numbers again.
#![tactic(auto)]

mod divider;
mod index;

ghost use Rattle.std.specs.Prelude.{◌≡◌, Bool, true, false, cond, ◌&&◌, ℕ, ◌+◌, ◌-◌, ◌*◌, ◌/◌, ◌%◌, ◌<◌, ◌≤◌, min, eqb, get_or, set};
ghost use Rattle.rm0440.specs.Counter.{step_cycles, restart};
ghost use Rattle.rm0440.specs.Output as Out;
ghost use Rattle.tim.specs.Timer as T;
ghost use Rattle.tim.specs.Timer.{Fit, with_count};
ghost use Rattle.tim.specs.Count.{blocked, counts, up_from, down_from, ticks_at, count_after, cnt_at, synced, at_count};
ghost use Rattle.tim.specs.Next.{update_steps, waiting, steps_to, nearer, consider, next_steps, next_event};
ghost use Rattle.tim.specs.Change as C;

pub use divider::Divider;
pub use index::{CH1, CH2, CH3, CH4, Channel, Index};

// What set-up fixes: the timer's number, width, channel count, bus, interrupt and enable bit, and manual mode (document 02).
#[derive(Clone, Copy)]
pub struct Inst {
    pub n: u32,
    pub width: u32,
    pub channels: u32,
    pub apb: u32,
    pub irq: u32,
    pub en_reg: u32,
    pub en_bit: u32,
    pub manual: bool,
}

impl Inst {
    // The counter's largest value.
    fn max(self) -> u32
        ensures { result ≡ C.max_of self }
    {
        if self.width == 32 {
            Timer::MAX32
        } else {
            Timer::MAX16
        }
    }
}

// The registers as written.
#[derive(Clone, Copy)]
pub struct Regs {
    pub cr1: u32,
    pub cr2: u32,
    pub smcr: u32,
    pub dier: u32,
    pub sr: u32,
    pub ccer: u32,
    pub psc: u32,
    pub arr: u32,
}

// The channels: modes, compares as written and in use, those done in this period, and the latched references.
#[derive(Clone, Copy)]
pub struct Chan {
    pub ccmr: [u32; 2],
    pub ccr: [u32; 4],
    pub ccr_act: [u32; 4],
    pub cc_done: [bool; 4],
    pub oc: [bool; 4],
}

// The counter: cnt0 at cycle base, a step every tick cycles.
#[derive(Clone, Copy)]
pub struct Count {
    pub psc_act: u32,
    pub arr_act: u32,
    pub cnt0: u32,
    pub base: u64,
    pub tick: u32,
    pub running: bool,
}

// Its bounds (`Fit`) are no ghost field: tried, and the definitions that set any registers, counter or divider (`with_regs`,
// `with_count`, `reset_state`) would owe them.
#[derive(Clone, Copy)]
pub struct Timer {
    pub inst: Inst,
    pub regs: Regs,
    pub chan: Chan,
    pub count: Count,
}

// What the next event is. A compare's channel is a number: the definitions of every event name it so.
#[derive(Clone, Copy)]
pub enum Next {
    Update,
    Compare(usize),
}

// How many steps ahead an event lies.
#[derive(Clone, Copy)]
pub struct Ahead {
    pub steps: u64,
    pub next: Next,
}

impl Ahead {
    // The nearer of what is nearest so far and channel ch's compare, so many steps ahead. Compiled in as `steps_to` is.
    #[inline(always)]
    fn or_compare(self, steps: u64, ch: Channel) -> Ahead
        ensures { result ≡ nearer steps ch.n self }
    {
        if steps < self.steps {
            return Ahead {
                steps,
                next: Next::Compare(ch.n),
            };
        }
        self
    }
}

// The next event with its cycle, or none when the timer is stopped or blocked. No Option of a pair: the definitions of every event name the two.
#[derive(Clone, Copy)]
pub enum Due {
    At(u64, Next),
    Stopped,
}

// The count after a number of steps upward.
fn count_up(reload: u32, cnt: u32, ticks: u64) -> u32
    requires { ticks < 9223372036854775808 }
    ensures { result ≡ up_from reload cnt ticks }
{
    let sum = cnt as u64 + ticks;
    let last = reload as u64;
    if sum <= last {
        return sum as u32;
    }
    (sum % (last + 1)) as u32
}

fn count_down(reload: u32, cnt: u32, ticks: u64) -> u32
    requires { cnt ≤ reload }
    ensures { result ≡ down_from reload cnt ticks }
{
    let from = cnt as u64;
    if ticks <= from {
        return (from - ticks) as u32;
    }
    let last = reload as u64;
    let period = last + 1;
    (last - (ticks - from - 1) % period) as u32
}

// Cycles per step.
pub fn step_cycles(psc: u32, div: Divider) -> u32
    requires { psc < 65536 }
    ensures { result ≡ step_cycles psc div.n }
{
    (psc + 1) * div.n
}

// Cycles of a number of steps: every product of the two is made here, by digits of 16 bits.
pub fn cycles_of(steps: u64, tick: u32) -> u64
    requires { (steps ≤ 4294967296) × (tick ≤ 536870912) }
    ensures { result ≡ steps * tick }
{
    digits::times(steps, tick)
}

fn cc_flag(ch: Channel) -> u32
    ensures { result ≡ C.cc_flag ch.n }
{
    2 << ch.n
}

fn at_match(mode: u32, latched: bool) -> bool
    ensures { result ≡ Out.at_match mode latched }
{
    match mode {
        1 => true,
        2 => false,
        3 => !latched,
        _ => latched,
    }
}

fn pwm1(down: bool, cnt: u32, ccr: u32) -> bool
    ensures { result ≡ Out.pwm1 down cnt ccr }
{
    (cnt as u64) < ccr as u64 + down as u64
}

impl Timer {
    pub const MAX16: u32 = 0xffff;

    pub const MAX32: u32 = 0xffff_ffff;

    pub const CR1_BASIC: u32 = 0x8f;

    fn fresh(inst: Inst, div: Divider) -> Timer
        ensures { result ≡ C.reset_state inst div.n }
    {
        let top = inst.max();
        Timer {
            inst,
            regs: Regs {
                cr1: 0,
                cr2: 0,
                smcr: 0,
                dier: 0,
                sr: 0,
                ccer: 0,
                psc: 0,
                arr: top,
            },
            chan: Chan {
                ccmr: [0, 0],
                ccr: [0, 0, 0, 0],
                ccr_act: [0, 0, 0, 0],
                cc_done: [false, false, false, false],
                oc: [false, false, false, false],
            },
            count: Count {
                psc_act: 0,
                arr_act: top,
                cnt0: 0,
                base: 0,
                tick: step_cycles(0, div),
                running: false,
            },
        }
    }

    pub fn new(inst: Inst) -> Timer
        ensures { result ≡ C.reset_state inst 1 }
    {
        Timer::fresh(inst, Divider { n: 1 })
    }

    pub fn reset(self, div: Divider) -> Timer
        ensures { result ≡ C.reset_state self.inst div.n }
    {
        Timer::fresh(self.inst, div)
    }

    pub fn max(self) -> u32
        ensures { result ≡ T.max self }
    {
        self.inst.max()
    }

    pub fn down(self) -> bool
        ensures { result ≡ T.down self }
    {
        self.inst.channels != 0 && self.regs.cr1 / 16 % 2 == 1
    }

    // A reload of 0 in manual mode. The reload is read first for speed: who asks needs it next.
    fn is_blocked(self) -> bool
        ensures { result ≡ blocked self }
    {
        self.count.arr_act == 0 && self.inst.manual
    }

    // Runs, and is not blocked.
    pub fn counts(self) -> bool
        ensures { result ≡ counts self }
    {
        !self.is_blocked() && self.count.running
    }

    // Whole steps from the reference to a cycle.
    fn ticks_at(self, c: u64) -> u64
        requires { Fit self }
        ensures { result ≡ ticks_at self c }
    {
        if c <= self.count.base {
            return 0;
        }
        (c - self.count.base) / self.count.tick as u64
    }

    fn after_down(self, ticks: u64) -> u32
        ensures { result ≡ down_from self.count.arr_act (min self.count.cnt0 self.count.arr_act) ticks }
    {
        let from = self.count.cnt0.min(self.count.arr_act);
        count_down(self.count.arr_act, from, ticks)
    }

    fn after_up(self, ticks: u64) -> u32
        requires { ticks < 9223372036854775808 }
        ensures { result ≡ up_from self.count.arr_act self.count.cnt0 ticks }
    {
        count_up(self.count.arr_act, self.count.cnt0, ticks)
    }

    // Counter value at cycle c. The direction is asked before the division for speed: fewer values are kept across it.
    #[tactic(auto, unfolding(crate::specs::Count::cnt_at))]
    pub fn cnt_at(self, c: u64) -> u32
        requires { (Fit self) × (c < 9223372036854775808) }
        ensures { result ≡ cnt_at self c }
    {
        if !self.counts() {
            return self.count.cnt0;
        }
        if self.down() {
            return self.after_down(self.ticks_at(c));
        }
        self.after_up(self.ticks_at(c))
    }

    // The count after a number of steps.
    fn count_after(self, ticks: u64) -> u32
        requires { ticks < 9223372036854775808 }
        ensures { result ≡ count_after self ticks }
    {
        if self.down() {
            return self.after_down(ticks);
        }
        self.after_up(ticks)
    }

    pub fn at_count(mut self, cnt: u32, base: u64) -> Timer
        ensures { result ≡ with_count self (at_count self.count cnt base) }
    {
        self.count.cnt0 = cnt;
        self.count.base = base;
        self
    }

    // Re-bases the reference to the most recent counter step at or before now (keeps the sub-step phase), blocked to now. Quotient and remainder are
    // one division. It is compiled into its callers: called, with the timer in memory, a write of a compare takes half as long again.
    #[inline(always)]
    pub fn sync(self, now: u64) -> Timer
        requires { (Fit self) × (now < 9223372036854775808) }
        ensures { result ≡ synced self now }
    {
        if !self.count.running {
            return self;
        }
        if self.is_blocked() {
            return self.at_count(self.count.cnt0, now);
        }
        if now <= self.count.base {
            return self.at_count(self.count_after(0), self.count.base);
        }
        let past = now - self.count.base;
        let tick = self.count.tick as u64;
        self.at_count(self.count_after(past / tick), now - past % tick)
    }

    // Channel ch's byte of CCMR1 or CCMR2.
    pub fn ccmr_byte(self, ch: Channel) -> u32
        ensures { result ≡ T.ccmr_byte self ch.n }
    {
        (self.chan.ccmr[ch.n / 2] >> (8 * (ch.n % 2))) % 256
    }

    pub fn oc_mode(self, ch: Channel) -> u32
        ensures { result ≡ T.oc_mode self ch.n }
    {
        self.ccmr_byte(ch) / 16 % 8
    }

    // Channel configured as output compare (CCxS = 0).
    pub fn is_output(self, ch: Channel) -> bool
        ensures { result ≡ T.is_output self ch.n }
    {
        ch.n < self.inst.channels as usize && self.ccmr_byte(ch) % 4 == 0
    }

    // Steps to the update event.
    pub fn update_steps(self) -> u64
        ensures { result ≡ update_steps self }
    {
        let cnt = self.count.cnt0 as u64;
        if self.down() {
            return cnt + 1;
        }
        let period = self.count.arr_act as u64 + 1;
        period.saturating_sub(cnt)
    }

    // Channel ch is an output and not done in this period.
    fn is_waiting(self, ch: Channel) -> bool
        ensures { result ≡ waiting self ch.n }
    {
        !self.chan.cc_done[ch.n] && self.is_output(ch)
    }

    // Steps to a compare value that lies ahead of the counter: downward at or below it, upward from it to the reload. Compiled in, with `or_compare`, where
    // it is asked: on its own it is compiled to a number beside a flag, and a delivery with nothing due takes a twentieth longer.
    #[inline(always)]
    fn steps_to(self, ccr: u32) -> Option<u32>
        ensures { result ≡ steps_to self ccr }
    {
        if self.down() {
            self.count.cnt0.checked_sub(ccr)
        } else if ccr <= self.count.arr_act {
            ccr.checked_sub(self.count.cnt0)
        } else {
            None
        }
    }

    // The nearer of what is nearest so far and channel ch's compare.
    #[inline(always)]
    pub fn consider(self, ch: Channel, best: Ahead) -> Ahead
        ensures { result ≡ consider self ch.n best }
    {
        if !self.is_waiting(ch) {
            return best;
        }
        match self.steps_to(self.chan.ccr_act[ch.n]) {
            Some(steps) => best.or_compare(u64::from(steps), ch),
            None => best,
        }
    }

    // The channels are written out: a timer of constant places stays in registers. By a loop over them an event takes twice the Rust's time.
    #[inline(always)]
    fn next_steps(self) -> Ahead
        ensures { result ≡ next_steps self }
    {
        let update = Ahead {
            steps: self.update_steps(),
            next: Next::Update,
        };
        let a = self.consider(CH1, update);
        let b = self.consider(CH2, a);
        let c = self.consider(CH3, b);
        self.consider(CH4, c)
    }

    // The next event after the reference: the update and every pending compare. It is compiled into its callers: a booking and the delivery's loop.
    #[inline(always)]
    pub fn next_event(self) -> Due
        requires { Fit self }
        ensures { result ≡ next_event self }
    {
        if !self.counts() {
            return Due::Stopped;
        }
        let first = self.next_steps();
        let at = self.count.base + cycles_of(first.steps, self.count.tick);
        Due::At(at, first.next)
    }

    // The compare value ccr lies behind the counter.
    pub fn is_past(self, ccr: u32) -> bool
        ensures { result ≡ C.behind_of self ccr }
    {
        if self.down() {
            return self.count.cnt0 < ccr;
        }
        ccr <= self.count.cnt0
    }

    // Channel ch's compare lies behind the counter.
    #[tactic(auto, unfolding(crate::specs::Change::behind))]
    pub fn is_behind(self, ch: Channel) -> bool
        ensures { result ≡ C.behind self ch.n }
    {
        self.is_past(self.chan.ccr_act[ch.n])
    }

    fn is_done(self, ch: Channel) -> bool
        ensures { result ≡ C.done_now self ch.n }
    {
        ch.n < self.inst.channels as usize && self.is_behind(ch)
    }

    fn is_done_after_update(self, ch: Channel) -> bool
        ensures { result ≡ C.done_after_update self ch.n }
    {
        ch.n < self.inst.channels as usize && self.count.arr_act < self.chan.ccr_act[ch.n]
    }

    // Marks channels whose compare lies behind the counter as done for this period. By a `map` over the four channels an event takes a twenty-fifth more
    // instructions, here and below.
    pub fn recompute_cc_done(mut self) -> Timer
        ensures { result ≡ C.recomputed self }
    {
        self.chan.cc_done = std::array::from_fn(
            |n: usize|
                requires { n < 4 }
            { self.is_done(Channel { n }) },
        );
        self
    }

    // After an update the counter restarts: every channel compares again, including a compare equal to the restart value.
    pub fn recompute_cc_done_after_update(mut self) -> Timer
        ensures { result ≡ C.recomputed_after_update self }
    {
        self.chan.cc_done = std::array::from_fn(
            |n: usize|
                requires { n < 4 }
            { self.is_done_after_update(Channel { n }) },
        );
        self
    }

    // The output reference of channel ch at a count. By ranges: an arm for each mode is compiled to a table of jumps, in each of an event's channels.
    pub fn ocref(self, ch: Channel, cnt: u32) -> bool
        ensures { result ≡ C.ocref self ch.n cnt }
    {
        let mode = self.oc_mode(ch);
        match mode {
            0..=3 => self.chan.oc[ch.n],
            4..=5 => mode == 5,
            _ => {
                let active = pwm1(self.down(), cnt, self.chan.ccr_act[ch.n]);
                if mode == 6 { active } else { !active }
            }
        }
    }

    // The level that channel ch drives at a count: OCxREF with CCxE and CCxP.
    #[tactic(auto, unfolding(crate::specs::Change::output))]
    pub fn output(self, ch: Channel, cnt: u32) -> bool
        ensures { result ≡ C.output self ch.n cnt }
    {
        let bits = self.regs.ccer >> (4 * ch.n);
        self.is_output(ch) && bits % 2 == 1 && self.ocref(ch, cnt) != (bits / 2 % 2 == 1)
    }

    // The active prescaler, reload and compares take the written ones.
    fn load(mut self) -> Timer
        ensures { result ≡ C.loaded self }
    {
        let ccr = self.chan.ccr;
        self.chan.ccr_act = ccr;
        self.count.psc_act = self.regs.psc;
        self.count.arr_act = self.regs.arr;
        self
    }

    #[tactic(auto, unfolding(crate::specs::Change::reloaded))]
    fn reload(self) -> Timer
        ensures { result ≡ C.reloaded self }
    {
        if self.regs.cr1 / 2 % 2 == 1 {
            return self;
        }
        let mut loaded = self.load();
        loaded.regs.sr |= 1;
        loaded
    }

    // The count at which a period begins.
    fn first_count(self) -> u32
        ensures { result ≡ restart (T.down self) self.count.arr_act }
    {
        if self.down() {
            return self.count.arr_act;
        }
        0
    }

    fn restart(mut self, at: u64, div: Divider) -> Timer
        requires { self.count.psc_act < 65536 }
        ensures { result ≡ C.restarted self at div.n }
    {
        self.count.cnt0 = self.first_count();
        self.count.tick = step_cycles(self.count.psc_act, div);
        self.count.base = at;
        self
    }

    // A pulse ends: one-pulse, unless UDIS goes first in manual mode.
    fn pulse_ends(self) -> bool
        ensures { result ≡ C.pulse_ends self }
    {
        self.regs.cr1 / 8 % 2 == 1 && !(self.inst.manual && self.regs.cr1 / 2 % 2 == 1)
    }

    // A pulse ends, and in manual mode CEN with it.
    fn drops_cen(self) -> bool
        ensures { result ≡ (C.pulse_ends self && self.inst.manual) }
    {
        self.pulse_ends() && self.inst.manual
    }

    fn end_cr1(self) -> u32
        ensures { result ≡ cond (C.pulse_ends self && self.inst.manual) (C.without_cen self.regs.cr1) self.regs.cr1 }
    {
        if self.drops_cen() {
            return self.regs.cr1 - self.regs.cr1 % 2;
        }
        self.regs.cr1
    }

    fn end_running(self) -> bool
        ensures { result ≡ cond (C.pulse_ends self) false self.count.running }
    {
        !self.pulse_ends() && self.count.running
    }

    // What ends at an update: one-pulse, and in manual mode CEN with it. Both fields are always stored: with a return for each case an event takes
    // a quarter longer.
    #[tactic(auto, unfolding(crate::specs::Change::ended))]
    fn end(mut self) -> Timer
        ensures { result ≡ C.ended self }
    {
        let running = self.end_running();
        self.regs.cr1 = self.end_cr1();
        self.count.running = running;
        self
    }

    // Update event at cycle at: reload shadow registers, restart the period. It is compiled into the delivery's loop whole: with its parts compiled in one by
    // one an event takes a tenth longer.
    #[inline(always)]
    pub fn update(self, at: u64, div: Divider) -> Timer
        requires { Fit self }
        ensures { result ≡ C.updated self at div.n }
    {
        self.reload()
            .restart(at, div)
            .recompute_cc_done_after_update()
            .end()
    }

    // A match of channel ch: the reference that its mode latches, and its flag.
    pub fn matched(mut self, ch: Channel) -> Timer
        ensures { result ≡ C.matched self ch.n }
    {
        self.chan.oc[ch.n] = at_match(self.oc_mode(ch), self.chan.oc[ch.n]);
        self.regs.sr |= cc_flag(ch);
        self
    }

    // What a compare event of channel ch does.
    pub fn compare(self, ch: Channel) -> Timer
        ensures { result ≡ C.compared self ch.n }
    {
        let mut m = self.matched(ch);
        m.chan.cc_done[ch.n] = true;
        m
    }

    fn run_from(mut self, now: u64, tick: u32) -> Timer
        ensures { result ≡ C.ran_from self now tick }
    {
        self.count.running = true;
        self.count.tick = tick;
        self.count.base = now;
        self
    }

    pub fn start(self, now: u64, div: Divider) -> Timer
        requires { Fit self }
        ensures { result ≡ C.started self now div.n }
    {
        self.run_from(now, step_cycles(self.count.psc_act, div))
            .recompute_cc_done()
    }

    pub fn stop(self, now: u64) -> Timer
        requires { (Fit self) × (now < 9223372036854775808) }
        ensures { result ≡ C.stopped self now }
    {
        let mut t = self.sync(now);
        t.count.running = false;
        t
    }

    #[tactic(auto, unfolding(crate::specs::Change::retimed))]
    pub fn on_clock_change(self, now: u64, div: Divider) -> Timer
        requires { (Fit self) × (now < 9223372036854775808) }
        ensures { result ≡ C.retimed self now div.n }
    {
        let mut retimed = self.sync(now);
        retimed.count.tick = step_cycles(self.count.psc_act, div);
        retimed
    }

    // The update that EGR's UG makes.
    #[tactic(auto, unfolding(crate::specs::Change::generated))]
    pub fn generate_update(self, now: u64, div: Divider) -> Timer
        requires { Fit self }
        ensures { result ≡ C.generated self now div.n }
    {
        self.load()
            .restart(now, div)
            .recompute_cc_done_after_update()
            .flag_generated()
    }

    // UIF, unless URS or UDIS.
    #[tactic(auto, unfolding(crate::specs::Change::flagged_generated))]
    fn flag_generated(mut self) -> Timer
        ensures { result ≡ C.flagged_generated self }
    {
        if self.regs.cr1 / 4 % 2 == 1 || self.regs.cr1 / 2 % 2 == 1 {
            return self;
        }
        self.regs.sr |= 1;
        self
    }
}
