// A number up to 2^32 times a number of 32 bits, by their digits of 16 bits: for a processor that multiplies 32 bits into 32 and no wider
// (document 02, F-3). Every product is one of two numbers below 2^16; what is wider are sums and shifts.
#![tactic(auto)]

ghost use Rattle.std.specs.Prelude.{◌≡◌, ◌*◌, ◌<◌, ◌≤◌};

// The product of two digits: 32 bits hold it.
fn product(a: u32, b: u32) -> u64
    requires { (a < 65536) × (b < 65536) }
    ensures exact { result ≡ a * b }
    ensures at_most { result ≤ a * 65535 }
{
    (a * b) as u64
}

// The next digit's place.
fn up(x: u64) -> u64
    requires { x < 281474976710656 }
    ensures { result ≡ x * 65536 }
{
    x << 16
}

// A number times a digit, by the number's three digits: the third is 1 for 2^32, else 0.
fn by_digit(n: u64, d: u32) -> u64
    requires { (n ≤ 4294967296) × (d < 65536) }
    ensures exact { result ≡ n * d }
    ensures at_most { result ≤ n * 65535 }
{
    let high = n / 65536;
    let low = product((n % 65536) as u32, d);
    let middle = product((high % 65536) as u32, d);
    let carry = product((high / 65536) as u32, d);
    low + up(middle + up(carry))
}

// The product, by the second number's two digits. With one digit each, which is the common case, it is one product.
#[tactic(auto, using(crate::proofs::Laws::digits))]
pub fn times(n: u64, m: u32) -> u64
    requires { n ≤ 4294967296 }
    ensures { result ≡ n * m }
{
    if n < 65536 && m < 65536 {
        return product(n as u32, m);
    }
    by_digit(n, m % 65536) + up(by_digit(n, m / 65536))
}
