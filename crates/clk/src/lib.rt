// Clock frequencies and bus ratios.
#![tactic(auto)]

ghost use Rattle.std.specs.Prelude.{◌≡◌};
ghost use Rattle.clk.specs.Clk.{flat_tree, timer_div, in_range, good, differing};

const MAX_DIVIDER: u32 = 8192;

// `ppre1` to `ppre4` are the core cycles per cycle of the buses APB1 to APB4, and `tim1` and `tim2`
// those per cycle of the timers' clock on APB1 and APB2.
#[derive(Clone, Copy)]
pub struct ClockTree {
    pub sysclk_hz: f64,
    pub hclk_hz: f64,
    pub ppre1: u32,
    pub ppre2: u32,
    pub ppre3: u32,
    pub ppre4: u32,
    pub tim1: u32,
    pub tim2: u32,
}

// A divider from 1 to 8,192.
fn in_range(divider: u32) -> bool
    ensures { result ≡ in_range divider }
{
    (1..=MAX_DIVIDER).contains(&divider)
}

impl ClockTree {
    // A tree running everything from one clock, no prescalers.
    pub fn flat(hz: f64) -> ClockTree
        ensures { result ≡ flat_tree hz }
    {
        ClockTree {
            sysclk_hz: hz,
            hclk_hz: hz,
            ppre1: 1,
            ppre2: 1,
            ppre3: 1,
            ppre4: 1,
            tim1: 1,
            tim2: 1,
        }
    }

    // Core cycles per cycle of the timers' clock on bus `apb`: such a number to C and in a timer's settings, where any is allowed.
    #[tactic(auto, unfolding(crate::specs::Clk::timer_div))]
    pub fn timer_div(self, apb: u32) -> u32
        ensures { result ≡ timer_div self apb }
    {
        match apb {
            1 => self.tim1,
            2 => self.tim2,
            3 => self.ppre3,
            _ => self.ppre4,
        }
    }

    // Both frequencies are finite and above 0, and the six dividers are in range.
    #[tactic(auto, unfolding(crate::specs::Clk::good))]
    pub fn is_good(self) -> bool
        ensures { result ≡ good self }
    {
        real::is_positive(self.sysclk_hz)
            && real::is_positive(self.hclk_hz)
            && in_range(self.ppre1)
            && in_range(self.ppre2)
            && in_range(self.ppre3)
            && in_range(self.ppre4)
            && in_range(self.tim1)
            && in_range(self.tim2)
    }

    // Whether the timers have to be told of the tree t: no derived equality, since `sysclk_hz` does not count.
    #[tactic(auto, unfolding(crate::specs::Clk::differing))]
    pub fn differs(self, t: ClockTree) -> bool
        ensures { result ≡ differing self t }
    {
        self.hclk_hz != t.hclk_hz
            || self.ppre1 != t.ppre1
            || self.ppre2 != t.ppre2
            || self.ppre3 != t.ppre3
            || self.ppre4 != t.ppre4
            || self.tim1 != t.tim1
            || self.tim2 != t.tim2
    }
}
