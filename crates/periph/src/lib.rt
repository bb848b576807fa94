// Lanes of a 32-bit register (periph/mod.rs).
#![tactic(auto)]

ghost use Rattle.std.specs.Prelude.{◌≡◌, ◌+◌, ◌^◌, ◌≤◌, ◌<◌};
ghost use Rattle.periph.specs.Lane.{lane_read, lane_write, merged};

// The `size`-byte lane at `offset` of the register `reg`. A size other than 1, 2 and 4 is refused
// by the caller; here it acts as 1.
#[tactic(auto, unfolding(crate::specs::Lane::lane_read))]
pub fn lane_read(reg: u32, offset: u32, size: u8) -> u32
    ensures { result ≡ lane_read reg offset size }
{
    let sh = 8 * (offset % 4);
    match size {
        4 => reg,
        2 => (reg >> sh) % 65536,
        _ => (reg >> sh) % 256,
    }
}

// `old` with the bits from `sh` up to `end` replaced by `lane`; bits beyond bit 31 are lost.
fn merge(old: u32, sh: u32, end: u32, lane: u32) -> u32
    requires { (sh ≤ 24) × ((end ≤ 40) × (lane < 2 ^ 16)) }
    ensures { result ≡ merged old sh end lane }
{
    let reg = old as u64;
    let below = reg - ((reg >> sh) << sh);
    let above = (reg >> end) << end;
    ((below + ((lane as u64) << sh) + above) % 4294967296) as u32
}

// The register `old` after a `size`-byte write of `value` at `offset`. Sizes as in `lane_read`.
#[tactic(auto, unfolding(crate::specs::Lane::lane_write))]
pub fn lane_write(old: u32, offset: u32, size: u8, value: u32) -> u32
    ensures { result ≡ lane_write old offset size value }
{
    let sh = 8 * (offset % 4);
    match size {
        4 => value,
        2 => merge(old, sh, sh + 16, value % 65536),
        _ => merge(old, sh, sh + 8, value % 256),
    }
}
