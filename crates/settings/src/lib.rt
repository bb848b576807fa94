// A timer's settings as a record of bytes (document 02, F-10): a writer into lent places, a reader, and a reader of kind 1 alone.
#![tactic(auto)]

ghost use Rattle.std.specs.Prelude.{◌≡◌, ◌&&◌, cond, ◌≤◌, ◌<◌, eqb, leb, length, take, MatchResult};
ghost use Rattle.settings.specs.Record.{byte_at, two_at, four_at, kind_of, encode, decode, cut_short, strange_kind, wrong_length, wrong_added, wrong_settings, good, read_number, settings_of, turned_away, read, given, Writes};
ghost use Rattle.settings.specs.Refused.{number_of, inst_of};

// A timer's settings as set-up takes them: the bus counts from 1, manual is 1 or 0.
#[repr(C)]
#[derive(Clone, Copy, Default)]
pub struct Settings {
    pub number: u32,
    pub width: u32,
    pub channels: u32,
    pub bus: u32,
    pub word: u32,
    pub bit: u32,
    pub irq: u32,
    pub manual: u32,
}

// A writer's answer: the number, and how many bytes were written. No Result, here and in `Read`: C is handed them.
#[repr(C)]
#[derive(Clone, Copy, Default)]
pub struct Stored {
    pub number: u32,
    pub count: u32,
}

// A reader's answer: the number, how many bytes the record took, and the timer.
#[repr(C)]
#[derive(Clone, Copy, Default)]
pub struct Read {
    pub number: u32,
    pub count: u32,
    pub timer: Settings,
}

// Why no record is written or read, with the number that C is given.
#[derive(Clone, Copy)]
enum Refusal {
    BadSettings = 1,
    CutShort = 13,
    StrangeKind = 14,
    WrongLength = 15,
}

impl Refusal {
    fn number(self) -> u32
        ensures { result ≡ number_of self }
    {
        self as u32
    }
}

impl From<Refusal> for Stored {
    ghost from_gives = { λ refusal stored. stored ≡ record { number = number_of refusal; count = 0 } };

    fn from(refusal: Refusal) -> Self {
        Self {
            number: refusal.number(),
            count: 0,
        }
    }
}

impl From<Refusal> for Read {
    ghost from_gives = { λ refusal read. read ≡ turned_away (number_of refusal) };

    fn from(refusal: Refusal) -> Self {
        Self {
            number: refusal.number(),
            ..Self::default()
        }
    }
}

// Settings that may be too large for a record; any mode but 0 is manual. Numbers, since C gives them.
#[derive(Clone, Copy)]
struct Given {
    number: u64,
    width: u64,
    channels: u64,
    bus: u64,
    word: u64,
    bit: u64,
    irq: u64,
    manual: u64,
}

impl From<Settings> for Given {
    ghost from_gives = { λ s g. inst_of g ≡ given s.number s.width s.channels s.bus s.word s.bit s.irq s.manual };

    fn from(settings: Settings) -> Self {
        Self {
            number: u64::from(settings.number),
            width: u64::from(settings.width),
            channels: u64::from(settings.channels),
            bus: u64::from(settings.bus),
            word: u64::from(settings.word),
            bit: u64::from(settings.bit),
            irq: u64::from(settings.irq),
            manual: u64::from(settings.manual),
        }
    }
}

// From 1 to the most.
fn within(most: u64, x: u64) -> bool
    ensures { result ≡ leb 1 x && leb x most }
{
    (1..=most).contains(&x)
}

impl Given {
    // What a record can hold: set-up's limits, and that of the bus and the interrupt.
    #[tactic(auto, unfolding(crate::specs::Record::good))]
    fn is_good(self) -> bool
        ensures { result ≡ good (inst_of self) }
    {
        within(24, self.number)
            && (self.width == 16 || self.width == 32)
            && self.channels <= 4
            && self.word <= 8
            && self.bit <= 31
            && within(4, self.bus)
            && self.irq <= 0xffff_ffff
    }

    // Kind 2 for a manual timer.
    fn kind(self) -> u8
        ensures { (result ≡ cond (eqb self.manual 0) 1 2) × (result ≤ 2) }
    {
        if self.manual == 0 { 1 } else { 2 }
    }

    // How many bytes its record has: kind 2 has one more.
    fn len(self) -> u32
        ensures { (result ≡ length (encode (inst_of self))) × (result ≤ 15) }
    {
        13 + u32::from(self.kind())
    }

    // The bytes of a record; the last one is kind 2's alone.
    fn bytes(self) -> [u8; 15]
        ensures { take (length (encode (inst_of self))) result ≡ encode (inst_of self) }
    {
        let kind = self.kind();
        let [irq_0, irq_1, irq_2, irq_3, ..] = self.irq.to_le_bytes();
        [
            11 + kind,
            0,
            kind,
            0,
            (self.number % 256) as u8,
            (self.width % 256) as u8,
            (self.channels % 256) as u8,
            (self.bus.saturating_sub(1) % 256) as u8,
            (self.word % 256) as u8,
            (self.bit % 256) as u8,
            irq_0,
            irq_1,
            irq_2,
            irq_3,
            1,
        ]
    }

    // Writes the record to the front of the places; how many bytes it has.
    fn write(self, out: &mut [u8]) -> Result<u32, Refusal>
        ensures { MatchResult result (λ count. Writes (inst_of self) out.old out.new (record { number = 0; count = count })) (λ refusal. Writes (inst_of self) out.old out.new (record { number = number_of refusal; count = 0 })) }
    {
        let count = self.len();
        let places = count as usize;
        if out.len() < places {
            return Err(Refusal::CutShort);
        }
        if !self.is_good() {
            return Err(Refusal::BadSettings);
        }
        let bytes = self.bytes();
        out[..places].copy_from_slice(&bytes[..places]);
        Ok(count)
    }
}

// Writes a timer's record to the front of the places, if they are enough and a record can hold its settings: kind 2 for a manual timer, else kind 1.
#[unsafe(no_mangle)]
pub extern "C" fn record_write(
    out: &mut [u8],
    number: u64,
    width: u64,
    channels: u64,
    bus: u64,
    word: u64,
    bit: u64,
    irq: u64,
    manual: u64,
) -> Stored
    ensures { Writes (given number width channels bus word bit irq manual) out.old out.new result }
{
    let given = Given {
        number,
        width,
        channels,
        bus,
        word,
        bit,
        irq,
        manual,
    };
    match given.write(out) {
        Ok(count) => Stored { number: 0, count },
        Err(refusal) => Stored::from(refusal),
    }
}

// ---- read

// A byte; 0 for one that is not there.
fn byte_at(bytes: &[u8], at: usize) -> u8
    ensures { result ≡ byte_at bytes.now at }
{
    bytes.get(at).copied().unwrap_or(0)
}

fn two_at(bytes: &[u8], at: usize) -> u16
    requires { at < 16 }
    ensures { result ≡ two_at bytes.now at }
{
    u16::from_le_bytes([byte_at(bytes, at), byte_at(bytes, at + 1)])
}

fn four_at(bytes: &[u8], at: usize) -> u32
    requires { at < 12 }
    ensures { result ≡ four_at bytes.now at }
{
    u32::from_le_bytes([
        byte_at(bytes, at),
        byte_at(bytes, at + 1),
        byte_at(bytes, at + 2),
        byte_at(bytes, at + 3),
    ])
}

#[tactic(auto, unfolding(crate::specs::Record::cut_short))]
fn cut_short(bytes: &[u8]) -> bool
    ensures { result ≡ cut_short bytes.now }
{
    let length = two_at(bytes, 0);
    bytes.len() < 2 || length < 2 || bytes.len() < 2 + usize::from(length)
}

#[tactic(auto, unfolding(crate::specs::Record::strange_kind))]
fn strange_kind(latest: u16, bytes: &[u8]) -> bool
    ensures { result ≡ strange_kind latest bytes.now }
{
    !(1..=latest).contains(&two_at(bytes, 2))
}

#[tactic(auto, unfolding(crate::specs::Record::wrong_length))]
fn wrong_length(bytes: &[u8]) -> bool
    ensures { result ≡ wrong_length bytes.now }
{
    let length = two_at(bytes, 0);
    match two_at(bytes, 2) {
        1 => length != 12,
        2 => length != 13,
        _ => false,
    }
}

#[tactic(auto, unfolding(crate::specs::Record::wrong_added))]
fn wrong_added(bytes: &[u8]) -> bool
    ensures { result ≡ wrong_added bytes.now }
{
    let kind = two_at(bytes, 2);
    let added = byte_at(bytes, 14);
    kind == 2 && added != 1
}

// The settings as they stand; a kind-2 record's timer is manual.
#[tactic(auto, unfolding(crate::specs::Record::decode))]
fn settings_in(bytes: &[u8]) -> Settings
    ensures { result ≡ settings_of (decode bytes.now) }
{
    Settings {
        number: u32::from(byte_at(bytes, 4)),
        width: u32::from(byte_at(bytes, 5)),
        channels: u32::from(byte_at(bytes, 6)),
        bus: u32::from(byte_at(bytes, 7)) + 1,
        word: u32::from(byte_at(bytes, 8)),
        bit: u32::from(byte_at(bytes, 9)),
        irq: four_at(bytes, 10),
        manual: u32::from(two_at(bytes, 2) == 2),
    }
}

#[tactic(auto, unfolding(crate::specs::Record::wrong_settings, crate::specs::Record::good))]
fn wrong_settings(bytes: &[u8]) -> bool
    ensures { result ≡ wrong_settings bytes.now }
{
    wrong_added(bytes) || !Given::from(settings_in(bytes)).is_good()
}

// The first check that applies.
#[tactic(auto, unfolding(crate::specs::Record::read_number, machine::specs::Refusals::first))]
fn check(latest: u16, bytes: &[u8]) -> Result<(), Refusal>
    ensures { MatchResult result (λ _. read_number latest bytes.now ≡ 0) (λ refusal. read_number latest bytes.now ≡ number_of refusal) }
{
    if cut_short(bytes) {
        return Err(Refusal::CutShort);
    }
    if strange_kind(latest, bytes) {
        return Err(Refusal::StrangeKind);
    }
    if wrong_length(bytes) {
        return Err(Refusal::WrongLength);
    }
    if wrong_settings(bytes) {
        return Err(Refusal::BadSettings);
    }
    Ok(())
}

#[tactic(auto, unfolding(crate::specs::Record::read))]
fn checked(latest: u16, bytes: &[u8]) -> Result<Read, Refusal>
    ensures { MatchResult result (λ r. r ≡ read latest bytes.now) (λ refusal. turned_away (number_of refusal) ≡ read latest bytes.now) }
{
    check(latest, bytes)?;
    let length = u32::from(two_at(bytes, 0));
    Ok(Read {
        number: 0,
        count: 2 + length,
        timer: settings_in(bytes),
    })
}

// A reader of the kinds from 1 to the latest.
#[tactic(auto, unfolding(crate::specs::Record::read))]
fn read_up_to(latest: u16, bytes: &[u8]) -> Read
    ensures { result ≡ read latest bytes.now }
{
    checked(latest, bytes).unwrap_or_else(Read::from)
}

// Reads the record at the front; what stands behind it is passed over.
#[unsafe(no_mangle)]
pub extern "C" fn record_read(bytes: &[u8]) -> Read
    ensures { result ≡ read 2 bytes.now }
{
    read_up_to(2, bytes)
}

// The same of kind 1 alone: kind 2 is strange to it.
#[unsafe(no_mangle)]
pub extern "C" fn record_read_kind_1(bytes: &[u8]) -> Read
    ensures { result ≡ read 1 bytes.now }
{
    read_up_to(1, bytes)
}
