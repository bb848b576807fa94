// A timer's settings as a record of bytes, exported for C and Rust: each is the function of the same name in `settings`, with the same promise.
// A crate of its own: rt has a crate as a library or as a static library, not both; so each signature and clause stands here again.
#![tactic(auto)]

ghost use Rattle.std.specs.Prelude.{◌≡◌};
ghost use Rattle.settings.specs.Record.{read, given, Writes};

use settings::{Read, Stored};

// Writes a timer's record to the front of the places, if they are enough and a record can hold its settings: kind 2 for a manual timer, else kind 1.
#[unsafe(no_mangle)]
pub extern "C" fn record_write(
    out: &mut [u8],
    number: u64,
    width: u64,
    channels: u64,
    bus: u64,
    word: u64,
    bit: u64,
    irq: u64,
    manual: u64,
) -> Stored
    ensures { Writes (given number width channels bus word bit irq manual) out.old out.new result }
{
    settings::record_write(out, number, width, channels, bus, word, bit, irq, manual)
}

// Reads the record at the front; what stands behind it is passed over.
#[unsafe(no_mangle)]
pub extern "C" fn record_read(bytes: &[u8]) -> Read
    ensures { result ≡ read 2 bytes.now }
{
    settings::record_read(bytes)
}

// The same of kind 1 alone: kind 2 is strange to it.
#[unsafe(no_mangle)]
pub extern "C" fn record_read_kind_1(bytes: &[u8]) -> Read
    ensures { result ≡ read 1 bytes.now }
{
    settings::record_read_kind_1(bytes)
}
