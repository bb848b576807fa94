// A pin by value (sys.rs): what its configuration and its signal make it drive, and whether its level changed. Functions and no methods: each takes values
// and gives one, under the name of its definition, and half of them are of a part of a pin or of a number.
// Signal 0 is none, and no Option: it is the number that the signals' table has for none, and a lent word holds it.
#![tactic(auto)]

ghost use Rattle.std.specs.Prelude.{◌≡◌};
ghost use Rattle.gpio.specs.Gpio as G;

use pins::{ExtDrive, Mcu, Pin, Source};

// Electrical configuration of one pin as written by the port registers; by default an input.
#[derive(Clone, Copy, Default)]
pub struct PinCfg {
    // MODER: 0 input, 1 output, 2 alternate function, 3 analog. A number, since a word of the lent state may hold any: one above 3 acts as input.
    pub mode: u8,
    pub open_drain: bool,
    pub odr: u8,
    pub pullup: bool,
    pub pulldown: bool,
}

// All that the board holds of a pin: configuration, electrical state, and the selected signal (0 = none or not in
// alternate-function mode).
#[derive(Clone, Copy)]
pub struct Gpio {
    pub cfg: PinCfg,
    pub pin: Pin,
    pub sig: u32,
}

// A pin's level change: its new level, and who holds it.
#[derive(Clone, Copy, PartialEq, Eq)]
pub struct Edge {
    pub pin: u8,
    pub level: u8,
    pub source: Source,
}

// A pin after its level was resolved, and the change, if there is one.
#[derive(Clone, Copy)]
pub struct Moved {
    pub gpio: Gpio,
    pub change: Option<Edge>,
}

// An open-drain 1 releases the pin.
fn released(c: PinCfg, level: u8) -> u8
    ensures { result ≡ G.released c level }
{
    u8::from(c.open_drain && level == 1)
}

fn output_side(m: Mcu, c: PinCfg) -> Mcu
    ensures { result ≡ G.output_side m c }
{
    Mcu {
        dir: 1,
        out: c.odr,
        pullup: u8::from(c.pullup),
        pulldown: u8::from(c.pulldown),
        ov_enable: 0,
        ddoe: released(c, c.odr),
        ddov: 0,
        ..m
    }
}

fn signal_side(m: Mcu, c: PinCfg, level: u8) -> Mcu
    ensures { result ≡ G.signal_side m c level }
{
    Mcu {
        dir: 1,
        pullup: u8::from(c.pullup),
        pulldown: u8::from(c.pulldown),
        ov_enable: 1,
        ov_value: level,
        ddoe: released(c, level),
        ddov: 0,
        ..m
    }
}

fn input_side(m: Mcu, c: PinCfg) -> Mcu
    ensures { result ≡ G.input_side m c }
{
    Mcu {
        dir: 0,
        pullup: u8::from(c.pullup),
        pulldown: u8::from(c.pulldown),
        ov_enable: 0,
        ddoe: 0,
        ddov: 0,
        ..m
    }
}

// The signal that a pin is connected to, 0 for none.
pub fn signal_of(g: Gpio) -> u32
    ensures { result ≡ G.signal_of g }
{
    if g.cfg.mode == 2 { g.sig } else { 0 }
}

// A signal that drives its pin. The UARTs' signals end at 159; the timers' lie above, and need one test.
pub fn drives(s: u32) -> bool
    ensures { result ≡ G.drives s }
{
    s >= 160 || s != 0 && !sig::is_input(s as u16)
}

#[tactic(auto, unfolding(crate::specs::Gpio::side_of))]
fn side_of(g: Gpio, level: u8) -> Mcu
    ensures { result ≡ G.side_of g level }
{
    if g.cfg.mode == 1 {
        output_side(g.pin.mcu, g.cfg)
    } else if drives(signal_of(g)) {
        signal_side(g.pin.mcu, g.cfg, level)
    } else {
        input_side(g.pin.mcu, g.cfg)
    }
}

// The change of pin i from an old level to a new one, which a source gives it.
pub fn changed(i: u8, old: u8, new: u8, source: Source) -> Option<Edge>
    ensures { result ≡ G.changed i old new source }
{
    if new == old {
        None
    } else {
        Some(Edge {
            pin: i,
            level: new,
            source,
        })
    }
}

// Re-resolves the level of pin i after any change of its inputs. Compiled in as `Pin::resolve` is.
#[inline(always)]
#[tactic(auto, unfolding(crate::specs::Gpio::updated))]
pub fn update(i: u8, g: Gpio, vcc: f64) -> Moved
    ensures { result ≡ G.updated i g vcc }
{
    let pin = g.pin.resolve(vcc);
    let change = changed(i, g.pin.level, pin.level, pin.source);
    Moved {
        gpio: Gpio { pin, ..g },
        change,
    }
}

// Recomputes the chip's side of pin i from its configuration and its signal's level, then re-resolves it. Compiled in as `Pin::resolve` is.
#[inline(always)]
#[tactic(auto, unfolding(crate::specs::Gpio::refreshed))]
pub fn refresh(i: u8, g: Gpio, level: u8, vcc: f64) -> Moved
    ensures { result ≡ G.refreshed i g level vcc }
{
    let pin = Pin {
        mcu: side_of(g, level),
        ..g.pin
    };
    update(i, Gpio { pin, ..g }, vcc)
}

// Another configuration and selected signal.
pub fn configure(g: Gpio, c: PinCfg, s: u32) -> Gpio
    ensures { result ≡ G.configured g c s }
{
    Gpio {
        cfg: c,
        sig: s,
        ..g
    }
}

// Another outside drive.
pub fn connect(g: Gpio, e: ExtDrive) -> Gpio
    ensures { result ≡ G.connected g e }
{
    let pin = Pin { ext: e, ..g.pin };
    Gpio { pin, ..g }
}
