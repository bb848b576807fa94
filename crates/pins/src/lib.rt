// A pin's electrical model, and the clock's time.
#![tactic(auto)]

ghost use Rattle.std.specs.Prelude.{◌≡◌};
ghost use Rattle.pins.specs.Pins.{blank, effective_dir, driven_level, source_number, source_of, supply_at, clamped, settled, with_level, sensed_from, resolved};
ghost use Rattle.pins.specs.Clock.{new_clock, time_at, hz_set};

// What the outside world connects to a pin.
#[derive(Clone, Copy)]
pub enum ExtDrive {
    // Nothing connected.
    Float,
    Low,
    High,
    // Driven with an analogue voltage.
    Analog(f64),
}

// Who holds a pin's level, with the number that a book's entry and an answer give it.
#[derive(Clone, Copy, PartialEq, Eq)]
pub enum Source {
    Chip = 1,
    Outside = 2,
    Pull = 3,
    // Nobody: the level is only held.
    Held = 4,
}

impl Source {
    pub fn number(self) -> u8
        ensures { result ≡ source_number self }
    {
        self as u8
    }
}

// The source of a number: of every other number nobody's.
impl From<u64> for Source {
    ghost from_gives = { λ n source. source ≡ source_of n };

    fn from(n: u64) -> Self {
        match n {
            1 => Self::Chip,
            2 => Self::Outside,
            3 => Self::Pull,
            _ => Self::Held,
        }
    }
}

// The MCU side of a pin. Yes and no are numbers here, since a word of the lent state may hold any: 0 is no.
#[derive(Clone, Copy, Default)]
pub struct Mcu {
    // 1 = output.
    pub dir: u8,
    // Output latch.
    pub out: u8,
    pub pullup: u8,
    pub pulldown: u8,
    // A peripheral overrides the output value.
    pub ov_enable: u8,
    pub ov_value: u8,
    // A peripheral overrides the direction, with `ddov` (1 = output).
    pub ddoe: u8,
    pub ddov: u8,
}

#[derive(Clone, Copy)]
pub struct Pin {
    pub mcu: Mcu,
    pub ext: ExtDrive,
    // Resolved.
    pub level: u8,
    pub volts: f64,
    pub source: Source,
}

// The volts that the supply gives at a level.
pub fn supply_at(vcc: f64, level: u8) -> f64
    ensures { result ≡ supply_at vcc level }
{
    if level != 0 { vcc } else { 0.0 }
}

// Within 0 and the supply. Not-a-number and minus zero stay. No `f64::clamp`: it wants a supply that is not below 0, and here any may come.
fn clamp(v: f64, vcc: f64) -> f64
    ensures { result ≡ clamped v vcc }
{
    if v < 0.0 {
        0.0
    } else if v > vcc {
        vcc
    } else {
        v
    }
}

// The level that the Schmitt trigger settles: VIH = 0.6 Vcc, VIL = 0.3 Vcc, and none between them.
fn settled(v: f64, vcc: f64) -> Option<u8>
    ensures { result ≡ settled v vcc }
{
    if v >= 0.6 * vcc {
        Some(1)
    } else if v <= 0.3 * vcc {
        Some(0)
    } else {
        None
    }
}

impl Pin {
    pub fn new() -> Pin
        ensures { result ≡ blank }
    {
        Pin {
            mcu: Mcu::default(),
            ext: ExtDrive::Float,
            level: 0,
            volts: 0.0,
            source: Source::Held,
        }
    }

    // Value driven by the MCU when the pin is an output.
    pub fn driven(self) -> u8
        ensures { result ≡ driven_level self }
    {
        if self.mcu.ov_enable != 0 {
            self.mcu.ov_value
        } else {
            self.mcu.out
        }
    }

    // Direction after peripheral overrides (1 = output).
    pub fn effective_dir(self) -> u8
        ensures { result ≡ effective_dir self }
    {
        if self.mcu.ddoe != 0 {
            self.mcu.ddov
        } else {
            self.mcu.dir
        }
    }

    fn at_level(mut self, level: u8, volts: f64, source: Source) -> Pin
        ensures { result ≡ with_level self level volts source }
    {
        self.level = level;
        self.volts = volts;
        self.source = source;
        self
    }

    // An input, by what the outside connects to it. Compiled in as `resolve` is.
    #[inline(always)]
    #[tactic(auto, unfolding(crate::specs::Pins::sensed_from))]
    fn sensed(self, vcc: f64) -> Pin
        ensures { result ≡ sensed_from self vcc self.ext }
    {
        match self.ext {
            ExtDrive::Low => self.at_level(0, 0.0, Source::Outside),
            ExtDrive::High => self.at_level(1, vcc, Source::Outside),
            ExtDrive::Analog(x) => {
                let v = clamp(x, vcc);
                match settled(v, vcc) {
                    Some(level) => self.at_level(level, v, Source::Outside),
                    None => self.at_level(self.level, v, Source::Held),
                }
            }
            ExtDrive::Float => {
                if self.mcu.pullup != 0 {
                    self.at_level(1, vcc, Source::Pull)
                } else if self.mcu.pulldown != 0 {
                    self.at_level(0, 0.0, Source::Pull)
                } else {
                    // Keeps the last level.
                    self.at_level(self.level, supply_at(vcc, self.level), Source::Held)
                }
            }
        }
    }

    // The pin with its level, volts and source resolved. It, gpio's functions over it and state's that load a pin are compiled into the calls of pins: called,
    // with the pin in memory, to drive one takes twice as long.
    #[inline(always)]
    #[tactic(auto, unfolding(crate::specs::Pins::resolved))]
    pub fn resolve(self, vcc: f64) -> Pin
        ensures { result ≡ resolved self vcc }
    {
        if self.effective_dir() != 0 {
            let v = self.driven();
            self.at_level(v, supply_at(vcc, v), Source::Chip)
        } else {
            self.sensed(vcc)
        }
    }
}

// Converts cycles to seconds across frequency changes: the frequency, and the cycle and the time at
// which it was set.
#[derive(Clone, Copy)]
pub struct ClockModel {
    pub hz: f64,
    pub seg_cycle: u64,
    pub seg_time: f64,
}

impl ClockModel {
    pub fn new(hz: f64) -> ClockModel
        ensures { result ≡ new_clock hz }
    {
        ClockModel {
            hz,
            seg_cycle: 0,
            seg_time: 0.0,
        }
    }

    pub fn time_at(self, cycle: u64) -> f64
        ensures { result ≡ time_at self cycle }
    {
        self.seg_time + (real::nearest(cycle) - real::nearest(self.seg_cycle)) / self.hz
    }

    // The frequency hz from the cycle `now` on. Unchanged if it is the frequency already.
    pub fn set_hz(self, hz: f64, now: u64) -> ClockModel
        ensures { result ≡ hz_set self hz now }
    {
        if hz == self.hz {
            self
        } else {
            ClockModel {
                hz,
                seg_cycle: now,
                seg_time: self.time_at(now),
            }
        }
    }
}
