// Every small pilot (document 02, F-9): the settings up to a size n, handed out singly by their place.
#![tactic(auto)]

ghost use Rattle.std.specs.Prelude.{◌≡◌, ◌≤◌};
ghost use Rattle.small.specs.Small.{count, given, nothing, listed};

// The largest n that is served.
pub const WIDEST: u32 = 7;

// As C is handed it: a number, 0 or 12, and a setting: down is 0 for up, 1 for down.
#[repr(C)]
#[derive(Clone, Copy, Default)]
pub struct Listed {
    pub number: u32,
    pub reload: u32,
    pub prescaler: u32,
    pub compare: u32,
    pub mode: u32,
    pub down: u32,
}

// How many there are.
#[tactic(auto, unfolding(crate::specs::Small::count))]
fn size(n: u32) -> u32
    requires { n ≤ 7 }
    ensures { result ≡ count n }
{
    let square = (n + 1) * (n + 1);
    4 * square * (n + 2)
}

// The setting at place k of those up to n.
#[tactic(auto, unfolding(crate::specs::Small::listed))]
pub fn pilot(n: u32, k: u32) -> Listed
    ensures { result ≡ listed n k }
{
    if n > WIDEST {
        return Listed {
            number: 12,
            ..Listed::default()
        };
    }
    if k >= size(n) {
        return Listed::default();
    }
    let compares = k / 4;
    let prescalers = compares / (n + 2);
    Listed {
        number: 0,
        reload: prescalers / (n + 1),
        prescaler: prescalers % (n + 1),
        compare: compares % (n + 2),
        mode: 6 + k / 2 % 2,
        down: k % 2,
    }
}
