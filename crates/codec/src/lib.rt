// A timer and a pin as words of lent memory.
#![tactic(auto)]

ghost use Rattle.std.specs.Prelude.{◌≡◌, ◌+◌, ◌*◌, ◌/◌, ◌%◌, ◌<◌, ◌≤◌, eqb, length};
ghost use Rattle.pins.specs.Pins.{source_number, source_of};
ghost use Rattle.tim.specs.Timer.{Fit};
ghost use Rattle.gpio.specs.Gpio.{GpioFit};
ghost use Rattle.codec.specs.Pin.{cfg_at, mcu_at, ext_of, ext_code, ext_volts, decode_gpio};
ghost use Rattle.codec.specs.Codec.{CountFit, inst_at, regs_at, chan_at, count_at, decode_timer};

use gpio::{Gpio, PinCfg};
use pins::{ExtDrive, Mcu, Pin, Source};
use tim::{Chan, Count, Inst, Regs, Timer};

// The words of a timer.
pub const TIMER_WORDS: usize = 40;

// Which of them is which field; of an array its first. Manual mode came later and is the last.
pub mod timer {
    pub const N: usize = 0;

    pub const WIDTH: usize = 1;

    pub const CHANNELS: usize = 2;

    pub const APB: usize = 3;

    pub const IRQ: usize = 4;

    pub const EN_REG: usize = 5;

    pub const EN_BIT: usize = 6;

    pub const CR1: usize = 7;

    pub const CR2: usize = 8;

    pub const SMCR: usize = 9;

    pub const DIER: usize = 10;

    pub const SR: usize = 11;

    pub const CCER: usize = 12;

    pub const PSC: usize = 13;

    pub const ARR: usize = 14;

    pub const CCMR: usize = 15;

    pub const CCR: usize = 17;

    pub const CCR_ACT: usize = 21;

    pub const CC_DONE: usize = 25;

    pub const OC: usize = 29;

    pub const PSC_ACT: usize = 33;

    pub const ARR_ACT: usize = 34;

    pub const CNT0: usize = 35;

    pub const BASE: usize = 36;

    pub const TICK: usize = 37;

    pub const RUNNING: usize = 38;

    pub const MANUAL: usize = 39;
}

// The words of a pin. None is spare.
pub const GPIO_WORDS: usize = 16;

// Which of them is which field.
pub mod pin {
    pub const MODE: usize = 0;

    pub const OPEN_DRAIN: usize = 1;

    pub const ODR: usize = 2;

    pub const PULLUP: usize = 3;

    pub const PULLDOWN: usize = 4;

    // The chip's side.
    pub const DIR: usize = 5;

    pub const OUT: usize = 6;

    pub const UP: usize = 7;

    pub const DOWN: usize = 8;

    pub const OV_ENABLE: usize = 9;

    pub const OV_VALUE: usize = 10;

    pub const DDOE: usize = 11;

    pub const DDOV: usize = 12;

    pub const EXT: usize = 13;

    // The level's bit, and above it the source.
    pub const LEVEL: usize = 14;

    pub const SIG: usize = 15;
}

// ---- what a word holds: its low bits

pub fn low_32(word: u64) -> u32
    ensures { result ≡ word % 4294967296 }
{
    (word % 4294967296) as u32
}

fn low_16(word: u64) -> u32
    ensures { result ≡ word % 65536 }
{
    (word % 65536) as u32
}

pub fn low_8(word: u64) -> u8
    ensures { result ≡ word % 256 }
{
    (word % 256) as u8
}

pub fn lowest(word: u64) -> u8
    ensures { result ≡ word % 2 }
{
    (word % 2) as u8
}

pub fn is_odd(word: u64) -> bool
    ensures { result ≡ eqb (word % 2) 1 }
{
    word % 2 == 1
}

// The source in a level's word, in the two bits above the level: 0 is only held, so that zeroed memory is.
pub fn source_in(word: u64) -> Source
    ensures { result ≡ source_of (word / 2 % 4) }
{
    Source::from(word / 2 % 4)
}

// A level's word: the level, and the source above it.
#[inline(always)]
pub fn level_word(level: u8, source: Source) -> u64
    ensures { result ≡ level + 2 * (source_number source % 4) }
{
    u64::from(level) + 2 * (u64::from(source.number()) % 4)
}

// ---- a timer. Unpacking and packing are twins, each field written once in either: a form that had both would be a table of words and fields,
// and longer.

// What set-up fixed of the timer whose words begin at a place.
#[inline(always)]
pub fn unpack_inst(words: &[u64], at: usize) -> Inst
    requires { at + 40 ≤ length words.now }
    ensures { result ≡ inst_at words.now at (at + 39) }
{
    Inst {
        n: low_32(words[at + timer::N]),
        width: low_32(words[at + timer::WIDTH]),
        channels: low_32(words[at + timer::CHANNELS]),
        apb: low_32(words[at + timer::APB]),
        irq: low_32(words[at + timer::IRQ]),
        en_reg: low_32(words[at + timer::EN_REG]),
        en_bit: low_32(words[at + timer::EN_BIT]),
        manual: is_odd(words[at + timer::MANUAL]),
    }
}

fn unpack_regs(b: &[u64; TIMER_WORDS]) -> Regs
    ensures { result ≡ regs_at b.now 7 }
{
    Regs {
        cr1: low_32(b[timer::CR1]),
        cr2: low_32(b[timer::CR2]),
        smcr: low_32(b[timer::SMCR]),
        dier: low_32(b[timer::DIER]),
        sr: low_32(b[timer::SR]),
        ccer: low_32(b[timer::CCER]),
        psc: low_16(b[timer::PSC]),
        arr: low_32(b[timer::ARR]),
    }
}

fn unpack_chan(b: &[u64; TIMER_WORDS]) -> Chan
    ensures { result ≡ chan_at b.now 15 }
{
    Chan {
        ccmr: [low_32(b[timer::CCMR]), low_32(b[timer::CCMR + 1])],
        ccr: std::array::from_fn(|k: usize| low_32(b[timer::CCR + k])),
        ccr_act: std::array::from_fn(|k: usize| low_32(b[timer::CCR_ACT + k])),
        cc_done: std::array::from_fn(|k: usize| is_odd(b[timer::CC_DONE + k])),
        oc: std::array::from_fn(|k: usize| is_odd(b[timer::OC + k])),
    }
}

fn unpack_count(b: &[u64; TIMER_WORDS]) -> Count
    ensures { result ≡ count_at b.now 33 }
{
    Count {
        psc_act: low_16(b[timer::PSC_ACT]),
        arr_act: low_32(b[timer::ARR_ACT]),
        cnt0: low_32(b[timer::CNT0]),
        base: b[timer::BASE] % 9223372036854775808,
        tick: (b[timer::TICK] % 536870912 + 1) as u32,
        running: is_odd(b[timer::RUNNING]),
    }
}

// Words as a timer.
#[tactic(auto, unfolding(crate::specs::Codec::decode_timer))]
pub fn unpack_timer(b: [u64; TIMER_WORDS]) -> Timer
    ensures { result ≡ decode_timer b }
{
    Timer {
        inst: unpack_inst(&b, 0),
        regs: unpack_regs(&b),
        chan: unpack_chan(&b),
        count: unpack_count(&b),
    }
}

fn pack_inst(t: Inst) -> [u64; 8]
    ensures { inst_at result 0 7 ≡ t }
{
    [
        t.n as u64,
        t.width as u64,
        t.channels as u64,
        t.apb as u64,
        t.irq as u64,
        t.en_reg as u64,
        t.en_bit as u64,
        t.manual as u64,
    ]
}

fn pack_regs(t: Regs) -> [u64; 8]
    requires { t.psc < 65536 }
    ensures { regs_at result 0 ≡ t }
{
    [
        t.cr1 as u64,
        t.cr2 as u64,
        t.smcr as u64,
        t.dier as u64,
        t.sr as u64,
        t.ccer as u64,
        t.psc as u64,
        t.arr as u64,
    ]
}

fn pack_chan(t: Chan) -> [u64; 18]
    ensures { chan_at result 0 ≡ t }
{
    [
        t.ccmr[0] as u64,
        t.ccmr[1] as u64,
        t.ccr[0] as u64,
        t.ccr[1] as u64,
        t.ccr[2] as u64,
        t.ccr[3] as u64,
        t.ccr_act[0] as u64,
        t.ccr_act[1] as u64,
        t.ccr_act[2] as u64,
        t.ccr_act[3] as u64,
        t.cc_done[0] as u64,
        t.cc_done[1] as u64,
        t.cc_done[2] as u64,
        t.cc_done[3] as u64,
        t.oc[0] as u64,
        t.oc[1] as u64,
        t.oc[2] as u64,
        t.oc[3] as u64,
    ]
}

fn pack_count(t: Count) -> [u64; 6]
    requires { CountFit t }
    ensures { count_at result 0 ≡ t }
{
    [
        t.psc_act as u64,
        t.arr_act as u64,
        t.cnt0 as u64,
        t.base,
        t.tick as u64 - 1,
        t.running as u64,
    ]
}

// A timer as words. `Fit` is asked for: no field of the timer, as tim says.
#[tactic(auto, unfolding(crate::specs::Codec::decode_timer))]
pub fn pack_timer(t: Timer) -> [u64; TIMER_WORDS]
    requires { Fit t }
    ensures { decode_timer result ≡ t }
{
    let inst = pack_inst(t.inst);
    let regs = pack_regs(t.regs);
    let chan = pack_chan(t.chan);
    let count = pack_count(t.count);
    [
        inst[0], inst[1], inst[2], inst[3], inst[4], inst[5], inst[6], regs[0], regs[1], regs[2],
        regs[3], regs[4], regs[5], regs[6], regs[7], chan[0], chan[1], chan[2], chan[3], chan[4],
        chan[5], chan[6], chan[7], chan[8], chan[9], chan[10], chan[11], chan[12], chan[13],
        chan[14], chan[15], chan[16], chan[17], count[0], count[1], count[2], count[3], count[4],
        count[5], inst[7],
    ]
}

// ---- a pin

fn unpack_cfg(b: &[u64; GPIO_WORDS]) -> PinCfg
    ensures { result ≡ cfg_at b.now 0 }
{
    PinCfg {
        mode: low_8(b[pin::MODE]),
        open_drain: is_odd(b[pin::OPEN_DRAIN]),
        odr: lowest(b[pin::ODR]),
        pullup: is_odd(b[pin::PULLUP]),
        pulldown: is_odd(b[pin::PULLDOWN]),
    }
}

fn unpack_mcu(b: &[u64; GPIO_WORDS]) -> Mcu
    ensures { result ≡ mcu_at b.now 5 }
{
    Mcu {
        dir: low_8(b[pin::DIR]),
        out: lowest(b[pin::OUT]),
        pullup: low_8(b[pin::UP]),
        pulldown: low_8(b[pin::DOWN]),
        ov_enable: low_8(b[pin::OV_ENABLE]),
        ov_value: lowest(b[pin::OV_VALUE]),
        ddoe: low_8(b[pin::DDOE]),
        ddov: low_8(b[pin::DDOV]),
    }
}

// An outside drive of its number, and the volts of an analogue one. A twin of pads' but above 3, which is nothing there: of one function for both, each would
// have to be shown its own definition again, by the numbers below 4: no plainer.
#[tactic(auto, unfolding(crate::specs::Pin::ext_of))]
fn ext_of(code: u64, volts: f64) -> ExtDrive
    ensures { result ≡ ext_of code volts }
{
    match code {
        0 => ExtDrive::Float,
        1 => ExtDrive::Low,
        2 => ExtDrive::High,
        _ => ExtDrive::Analog(volts),
    }
}

#[tactic(auto, unfolding(crate::specs::Pin::ext_code))]
fn ext_code(e: ExtDrive) -> u64
    ensures { result ≡ ext_code e }
{
    match e {
        ExtDrive::Float => 0,
        ExtDrive::Low => 1,
        ExtDrive::High => 2,
        ExtDrive::Analog(_) => 3,
    }
}

// The volts of the pin's analogue drive, 0 for another drive.
#[tactic(auto, unfolding(crate::specs::Pin::ext_volts))]
pub fn ext_volts(g: Gpio) -> f64
    ensures { result ≡ ext_volts g.pin.ext }
{
    match g.pin.ext {
        ExtDrive::Analog(x) => x,
        _ => 0.0,
    }
}

// Words, the pin's volts and the volts of its analogue drive as a pin.
#[tactic(auto, unfolding(crate::specs::Pin::decode_gpio))]
pub fn unpack_gpio(b: [u64; GPIO_WORDS], volts: f64, ext: f64) -> Gpio
    ensures { result ≡ decode_gpio b volts ext }
{
    Gpio {
        cfg: unpack_cfg(&b),
        pin: Pin {
            mcu: unpack_mcu(&b),
            ext: ext_of(b[pin::EXT] % 4, ext),
            level: lowest(b[pin::LEVEL]),
            volts,
            source: source_in(b[pin::LEVEL]),
        },
        sig: u32::from(low_8(b[pin::SIG])),
    }
}

fn pack_cfg(t: PinCfg) -> [u64; 5]
    requires { t.odr ≤ 1 }
    ensures { cfg_at result 0 ≡ t }
{
    [
        t.mode as u64,
        t.open_drain as u64,
        t.odr as u64,
        t.pullup as u64,
        t.pulldown as u64,
    ]
}

fn pack_mcu(t: Mcu) -> [u64; 8]
    requires { (t.out ≤ 1) × (t.ov_value ≤ 1) }
    ensures { mcu_at result 0 ≡ t }
{
    [
        t.dir as u64,
        t.out as u64,
        t.pullup as u64,
        t.pulldown as u64,
        t.ov_enable as u64,
        t.ov_value as u64,
        t.ddoe as u64,
        t.ddov as u64,
    ]
}

// A pin as words; its volts and its drive's volts are held as floats.
pub fn pack_gpio(g: Gpio) -> [u64; GPIO_WORDS]
    requires { GpioFit g }
    ensures { decode_gpio result g.pin.volts (ext_volts g.pin.ext) ≡ g }
{
    let p = g.pin;
    let cfg = pack_cfg(g.cfg);
    let mcu = pack_mcu(p.mcu);
    let ext = ext_code(p.ext);
    [
        cfg[0],
        cfg[1],
        cfg[2],
        cfg[3],
        cfg[4],
        mcu[0],
        mcu[1],
        mcu[2],
        mcu[3],
        mcu[4],
        mcu[5],
        mcu[6],
        mcu[7],
        ext,
        level_word(p.level, p.source),
        g.sig as u64,
    ]
}
