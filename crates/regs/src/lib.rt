// The registers of a timer by value: the Rust's read_reg and write_reg of periph/tim.rs, over crate tim's timer. A register is a number, its offset, to
// C and in the manual. `Ready`, or `Fit` and a bound of the cycle, stands in the contracts: a timer's type has no bounds (crate tim says why).
#![tactic(auto)]

ghost use Rattle.std.specs.Prelude.{◌≡◌, ℕ, ◌<◌};
ghost use Rattle.rm0440.specs.Registers.{kept_mask};
ghost use Rattle.tim.specs.Timer.{Fit, Ready};
ghost use Rattle.regs.specs.Regs as R;

use tim::{Channel, Divider, Timer};

// What a register write leaves: the next timer, the count at which the outputs are driven if they are, and whether the
// interrupt line is settled and the next event booked.
#[derive(Clone, Copy)]
pub struct Written {
    pub timer: Timer,
    pub drive: Option<u32>,
    pub line: bool,
    pub book: bool,
}

impl Written {
    // Nothing follows.
    fn only(timer: Timer) -> Written
        ensures { result ≡ R.only timer }
    {
        Written {
            timer,
            drive: None,
            line: false,
            book: false,
        }
    }
}

const KEPT: [u32; 17] = [
    0x3ff,
    0xffff_ffff,
    0xffff_ffff,
    0x5f5f,
    0x1e5f,
    0,
    0xffff_ffff,
    0xffff_ffff,
    0x3333,
    0xffff_ffff,
    0xffff,
    0xffff_ffff,
    0,
    0xffff_ffff,
    0xffff_ffff,
    0xffff_ffff,
    0xffff_ffff,
];

// The bits that register reg (its offset / 4) keeps of a write.
pub fn kept(reg: usize) -> u32
    requires { reg < 17 }
    ensures { result ≡ kept_mask reg }
{
    KEPT[reg]
}

// What SR keeps: a written 0 clears a flag, and the table says which bits are flags.
pub fn kept_sr(sr: u32, v: u32) -> u32
    ensures { result ≡ R.kept_sr sr v }
{
    sr & (v | !kept(4))
}

// The bits that CR1 keeps: the table's, and of a timer without channels those of a basic timer.
pub fn kept_cr1(timer: Timer, v: u32) -> u32
    ensures { result ≡ R.kept_cr1 timer v }
{
    if timer.inst.channels == 0 {
        v & Timer::CR1_BASIC
    } else {
        v & kept(0)
    }
}

// A direction change settles again which compares are done.
#[tactic(auto, unfolding(crate::specs::Regs::turned))]
fn turn(timer: Timer, old: u32) -> Timer
    ensures { result ≡ R.turned old timer }
{
    if old / 16 % 2 == timer.regs.cr1 / 16 % 2 {
        return timer;
    }
    timer.recompute_cc_done()
}

// A write of CR1.
pub fn write_cr1(timer: Timer, v: u32, now: u64, div: Divider) -> Timer
    requires { Ready timer now div.n }
    ensures { result ≡ R.cr1_written timer v now div.n }
{
    let old = timer.regs.cr1;
    let new = kept_cr1(timer, v);
    let mut t = timer.sync(now);
    t.regs.cr1 = new;
    if old % 2 == new % 2 {
        turn(t, old)
    } else if new % 2 == 1 {
        t.start(now, div)
    } else {
        t.stop(now)
    }
}

fn egr_match(timer: Timer, v: u32, ch: Channel) -> Timer
    ensures { result ≡ R.egr_match v ch.n timer }
{
    if (v >> (ch.n + 1)) % 2 == 1 && timer.is_output(ch) {
        return timer.matched(ch);
    }
    timer
}

#[tactic(auto, unfolding(crate::specs::Regs::egr_update))]
fn egr_update(timer: Timer, v: u32, now: u64, div: Divider) -> Timer
    requires { Ready timer now div.n }
    ensures { result ≡ R.egr_update timer v now div.n }
{
    let s = timer.sync(now);
    if v % 2 == 1 {
        return s.generate_update(now, div);
    }
    s
}

fn write_egr(timer: Timer, v: u32, now: u64, div: Divider) -> Timer
    requires { Ready timer now div.n }
    ensures { result ≡ R.egr_written timer v now div.n }
{
    let mut t = egr_update(timer, v, now, div);
    for n in 0..4 {
        t = egr_match(t, v, Channel { n });
    }
    t
}

#[tactic(auto, unfolding(crate::specs::Regs::cnt_written))]
fn write_cnt(timer: Timer, v: u32, now: u64) -> Timer
    requires { (Fit timer) × (now < 9223372036854775808) }
    ensures { result ≡ R.cnt_written timer v now }
{
    timer
        .sync(now)
        .at_count(v & timer.max(), now)
        .recompute_cc_done()
}

#[tactic(auto, unfolding(crate::specs::Regs::arr_written))]
fn write_arr(timer: Timer, v: u32, now: u64) -> Written
    requires { (Fit timer) × (now < 9223372036854775808) }
    ensures { result ≡ R.arr_written timer v now }
{
    let arr = v & timer.max();
    let mut t = timer.sync(now);
    t.regs.arr = arr;
    if timer.regs.cr1 / 128 % 2 == 1 {
        return Written::only(t);
    }
    t.count.arr_act = arr;
    Written {
        book: true,
        ..Written::only(t.recompute_cc_done())
    }
}

// An immediate compare settles its own channel.
#[tactic(auto, unfolding(crate::specs::Regs::ccr_written))]
fn write_ccr(timer: Timer, ch: Channel, v: u32, now: u64) -> Written
    requires { (Fit timer) × (now < 9223372036854775808) }
    ensures { result ≡ R.ccr_written timer ch.n v now }
{
    let ccr = v & timer.max();
    let mut t = timer.sync(now);
    t.chan.ccr[ch.n] = ccr;
    if timer.ccmr_byte(ch) / 8 % 2 == 1 {
        return Written::only(t);
    }
    t.chan.ccr_act[ch.n] = ccr;
    let cnt = t.cnt_at(now);
    t.chan.cc_done[ch.n] = t.is_behind(ch);
    Written {
        drive: Some(cnt),
        book: true,
        ..Written::only(t)
    }
}

#[tactic(auto, unfolding(crate::specs::Regs::ccmr_written))]
fn write_ccmr(timer: Timer, i: usize, v: u32, now: u64) -> Written
    requires { (Fit timer) × (now < 9223372036854775808) × (i < 2) }
    ensures { result ≡ R.ccmr_written timer i v now }
{
    let mut t = timer.sync(now);
    t.chan.ccmr[i] = v;
    Written {
        drive: Some(t.cnt_at(now)),
        book: true,
        ..Written::only(t)
    }
}

#[tactic(auto, unfolding(crate::specs::Regs::ccer_written))]
fn write_ccer(mut timer: Timer, v: u32, now: u64) -> Written
    requires { (Fit timer) × (now < 9223372036854775808) }
    ensures { result ≡ R.ccer_written timer v now }
{
    timer.regs.ccer = v;
    Written {
        drive: Some(timer.cnt_at(now)),
        ..Written::only(timer)
    }
}

#[tactic(auto, unfolding(crate::specs::Regs::channel_written))]
fn write_channel(timer: Timer, off: u32, v: u32, now: u64) -> Written
    requires { (Fit timer) × (now < 9223372036854775808) }
    ensures { result ≡ R.channel_written timer off v now }
{
    if timer.inst.channels == 0 {
        return Written::only(timer);
    }
    match off {
        0x18 => write_ccmr(timer, 0, v & kept(6), now),
        0x1c => write_ccmr(timer, 1, v & kept(7), now),
        0x20 => write_ccer(timer, v & kept(8), now),
        0x34..=0x40 => write_ccr(
            timer,
            Channel {
                n: ((off - 0x34) / 4) as usize,
            },
            v & kept((off / 4) as usize),
            now,
        ),
        _ => Written::only(timer),
    }
}

// A write of the register at off, whose low two bits are clear: the next timer, and what follows.
#[tactic(auto, unfolding(crate::specs::Regs::reg_written))]
pub fn write_reg(mut timer: Timer, off: u32, v: u32, now: u64, div: Divider) -> Written
    requires { Ready timer now div.n }
    ensures { result ≡ R.reg_written timer off v now div.n }
{
    match off {
        0x00 => Written {
            book: true,
            ..Written::only(write_cr1(timer, v, now, div))
        },
        0x04 => {
            timer.regs.cr2 = v & kept(1);
            Written::only(timer)
        }
        0x08 => {
            timer.regs.smcr = v & kept(2);
            Written::only(timer)
        }
        0x0c => {
            timer.regs.dier = v & kept(3);
            Written {
                line: true,
                ..Written::only(timer)
            }
        }
        0x10 => {
            timer.regs.sr = kept_sr(timer.regs.sr, v);
            Written {
                line: true,
                ..Written::only(timer)
            }
        }
        0x14 => {
            let t = write_egr(timer, v, now, div);
            Written {
                timer: t,
                drive: Some(t.cnt_at(now)),
                line: true,
                book: true,
            }
        }
        0x24 => {
            let t = write_cnt(timer, v & kept(9), now);
            Written {
                drive: Some(t.count.cnt0),
                book: true,
                ..Written::only(t)
            }
        }
        0x28 => {
            timer.regs.psc = v & kept(10);
            Written::only(timer)
        }
        0x2c => write_arr(timer, v & kept(11), now),
        _ => write_channel(timer, off, v, now),
    }
}

#[tactic(auto, unfolding(crate::specs::Regs::channel_read))]
fn read_channel(timer: Timer, off: u32) -> u32
    ensures { result ≡ R.channel_read timer off }
{
    if timer.inst.channels == 0 {
        return 0;
    }
    // The compares are copied out for speed: where the timer itself is looked up by a variable, a read of any register but CNT takes a third more
    // instructions.
    let ccr = timer.chan.ccr;
    match off {
        0x18 => timer.chan.ccmr[0],
        0x1c => timer.chan.ccmr[1],
        0x20 => timer.regs.ccer,
        0x34..=0x40 => ccr[((off - 0x34) / 4) as usize],
        _ => 0,
    }
}

// A register's value at a cycle.
#[tactic(auto, unfolding(crate::specs::Regs::reg_read))]
pub fn read_reg(timer: Timer, off: u32, now: u64) -> u32
    requires { (Fit timer) × (now < 9223372036854775808) }
    ensures { result ≡ R.reg_read timer off now }
{
    match off {
        0x00 => timer.regs.cr1,
        0x04 => timer.regs.cr2,
        0x08 => timer.regs.smcr,
        0x0c => timer.regs.dier,
        0x10 => timer.regs.sr,
        0x24 => timer.cnt_at(now),
        0x28 => timer.regs.psc,
        0x2c => timer.regs.arr,
        _ => read_channel(timer, off),
    }
}

// Counting upward with the counter above the active reload + 1: a write that leaves this is refused.
pub fn is_astray(timer: Timer) -> bool
    ensures { result ≡ R.astray timer }
{
    timer.counts() && !timer.down() && timer.count.arr_act as u64 + 1 < timer.count.cnt0 as u64
}
