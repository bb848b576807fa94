// Floats as document 01 speaks of them.
#![tactic(auto)]

ghost use Rattle.std.specs.Prelude.{◌≡◌};
ghost use Rattle.real.specs.Real.{positive, bits_of, nearest_to};

const NAN_BITS: u64 = 0x7ff8_0000_0000_0000;

// Finite and above 0.
pub fn is_positive(f: f64) -> bool
    ensures { result ≡ positive f }
{
    f > 0.0 && f < f64::INFINITY
}

// The float's 64 bits, and one pattern for not-a-number.
pub fn bits(f: f64) -> u64
    ensures { result ≡ bits_of f }
{
    if f.is_nan() { NAN_BITS } else { f.to_bits() }
}

// The nearest float, ties to even.
pub fn nearest(cycle: u64) -> f64
    ensures { result ≡ nearest_to cycle }
{
    std::num::nearest_u64_to_f64(cycle)
}
