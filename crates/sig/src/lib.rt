// Signal numbers (sys.rs, mod sig).
#![tactic(auto)]

ghost use Rattle.std.specs.Prelude.{◌≡◌};
ghost use Rattle.sig.specs.Signal.{tim_signal, is_uart, is_input, idle_level};

// The number of signals.
pub const NSIG: usize = 256;

// No signal.
pub const NONE: u16 = 0;

// The number of UARTs.
pub const UARTS: u8 = 9;

// The signal of channel `ch`, from 0, of timer `timer`. Channels are 0 to 3.
pub fn tim(timer: u8, ch: u8) -> u16
    ensures { result ≡ tim_signal timer ch }
{
    16 * (timer as u16 + 10) + ch as u16 + 2
}

// Whether `s` is signal `k` of a UART.
#[tactic(auto, unfolding(crate::specs::Signal::is_uart))]
fn is_uart(s: u16, k: u16) -> bool
    ensures { result ≡ is_uart s k }
{
    (1..=u16::from(UARTS)).contains(&(s / 16)) && s % 16 == k
}

// Whether `s` is an input signal: a UART's receive signal.
pub fn is_input(s: u16) -> bool
    ensures { result ≡ is_input s }
{
    is_uart(s, 1)
}

// The level that the signal `s` starts with: 1 for a UART's transmit signal, else 0.
pub fn idle_level(s: u16) -> u8
    ensures { result ≡ idle_level s }
{
    u8::from(is_uart(s, 0))
}
