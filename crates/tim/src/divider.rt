// Core cycles per cycle of a timer's clock, with their bound: what takes them need not ask for it.

ghost use Rattle.std.specs.Prelude.{◌≤◌};

// The clock tree divides by at most 8,192.
#[derive(Clone, Copy)]
pub struct Divider {
    pub n: u32,
    pub ghost below: { n ≤ 8192 },
}
