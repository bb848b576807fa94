// A timer's and a pin's index, with their bounds.

use tim::Index;

// The lent words have places for 8 timers.
pub type TimerIndex = Index<8>;

// The lent words have places for 128 pins.
pub type PinIndex = Index<128>;
