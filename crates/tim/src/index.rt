// An index below a bound: what takes one need not ask for it. A channel's here, and in crate state a timer's and a pin's.

ghost use Rattle.std.specs.Prelude.{◌<◌};

#[derive(Clone, Copy)]
pub struct Index<const N: usize> {
    pub n: usize,
    pub ghost below: { n < N },
}

// Each of a timer's arrays has places for 4 channels.
pub type Channel = Index<4>;

// The four by the manual's names, for code that writes them out.
pub const CH1: Channel = Channel { n: 0 };

pub const CH2: Channel = Channel { n: 1 };

pub const CH3: Channel = Channel { n: 2 };

pub const CH4: Channel = Channel { n: 3 };
