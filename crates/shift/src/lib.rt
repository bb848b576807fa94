// The duty report for a shift (document 02, F-1), in pieces: begin, feed a book any number of times, end. The one-shot report is begin, one
// feed, end. What is kept between the pieces is in words that the caller lends; figures are written at the end alone.
#![tactic(auto)]

ghost use Rattle.std.specs.Prelude.{◌≡◌, ◌≢◌, ℕ, ◌+◌, ◌-◌, ◌<◌, ◌≤◌, true, false, List, [], ◌++◌, length, if◌then◌else◌, count_ones, nat_eq, nat_lt, MatchOption};
ghost use Rattle.book.specs.Book.{Entry};
ghost use Rattle.shift.specs.Shift.{piece, sourceless, Shift, shift, level_bit, entries_in, Reports};
ghost use Rattle.shift.specs.Kept.{counts, rest, turned_high, more_edges, took, track_at, put_track, fresh_track, Fresh, from_of, to_of, number_kept, number_given, strays, entered, fed, put_figures, Written, high_tracks, Ended, Stands};
ghost use Rattle.shift.specs.Refused.{number_with};

// The kept words: four a pin, from, to, the number. C lends them, in which no struct can stand.
const FROM: usize = 512;

const TO: usize = 513;

const NUMBER: usize = 514;

pub const KEPT: usize = 515;
// High, low and edges of each pin.
pub const FIGURES: usize = 384;

// A pin: the cycle of its last entry, its level at the end of the shift and its high cycles if no entry follows, its edges.
#[derive(Clone, Copy)]
pub struct Track {
    pub last: u64,
    pub level: u64,
    pub high: u64,
    pub edges: u64,
}

// The number, 0, 9 or 10, and how many pins are high at the end of the shift. No Result: C is handed it.
#[repr(C)]
#[derive(Clone, Copy)]
pub struct Summary {
    pub number: u32,
    pub high: u32,
}

// Why nothing is reported. The kept words and the summary hold its number.
#[derive(Clone, Copy)]
enum Refusal {
    Reversed = 9,
    OutOfOrder = 10,
}

impl Refusal {
    fn number(self) -> u32
        ensures { result ≡ number_with self }
    {
        self as u32
    }
}

// The shift's cycles, `to` excluded.
#[derive(Clone, Copy)]
struct Span {
    from: u64,
    to: u64,
}

impl Span {
    // "Shift reversed", or 0.
    fn number(self) -> u64
        ensures { result ≡ (if nat_lt self.to self.from then 9 else 0) }
    {
        if self.to < self.from {
            u64::from(Refusal::Reversed.number())
        } else {
            0
        }
    }

    fn len(self) -> u64
        ensures { result ≡ self.to - self.from }
    {
        self.to.saturating_sub(self.from)
    }

    // An entry at that cycle counts for the levels.
    fn counts(self, cycle: u64) -> bool
        ensures { result ≡ counts self.from self.to cycle }
    {
        cycle < self.to || cycle <= self.from
    }

    // The cycles from an entry on.
    fn rest(self, cycle: u64) -> u64
        ensures { result ≡ rest self.from self.to cycle }
    {
        self.to.saturating_sub(cycle.max(self.from))
    }

    // An entry at from is no edge.
    fn more(self, edges: u64, cycle: u64) -> u64
        ensures { result ≡ more_edges edges self.from cycle }
    {
        edges.wrapping_add(u64::from(self.from < cycle))
    }

    // A pin before its first entry: at one level to the end.
    fn fresh(self, level: u64) -> Track
        ensures { result ≡ fresh_track self.from self.to level }
    {
        Track {
            last: 0,
            level,
            high: if level == 1 { self.len() } else { 0 },
            edges: 0,
        }
    }
}

impl Track {
    // One entry of the pin.
    #[tactic(auto, unfolding(crate::specs::Kept::took))]
    fn took(self, span: Span, level: u64, cycle: u64) -> Track
        ensures { result ≡ took span.from span.to self level cycle }
    {
        if level == self.level || !span.counts(cycle) {
            return Track {
                last: cycle,
                ..self
            };
        }
        Track {
            last: cycle,
            level,
            high: turned(self.high, span.rest(cycle), level),
            edges: span.more(self.edges, cycle),
        }
    }
}

// The rest of the shift is high, or is not.
fn turned(high: u64, rest: u64, level: u64) -> u64
    ensures { result ≡ turned_high high rest level }
{
    if level == 1 {
        high.wrapping_add(rest)
    } else {
        high.saturating_sub(rest)
    }
}

// ---- the kept words. A pin is below 128 wherever it is a place in them; a book's bytes may say any, which `placed` tests. No type for it: the words and the
// bytes are C's, and a loop over the pins counts in plain numbers.

// Field by field, here and in `store`: the names say which word is which.
fn load(kept: &[u64; KEPT], pin: usize) -> Track
    requires { pin < 128 }
    ensures { result ≡ track_at kept.now pin }
{
    let at = 4 * pin;
    Track {
        last: kept[at],
        level: kept[at + 1],
        high: kept[at + 2],
        edges: kept[at + 3],
    }
}

#[tactic(auto, unfolding(crate::specs::Kept::put_track))]
fn store(kept: &mut [u64; KEPT], pin: usize, t: Track)
    requires { pin < 128 }
    ensures { kept.new ≡ put_track kept.old pin t }
{
    let at = 4 * pin;
    kept[at] = t.last;
    kept[at + 1] = t.level;
    kept[at + 2] = t.high;
    kept[at + 3] = t.edges;
}

fn span_in(kept: &[u64; KEPT]) -> Span
    ensures { result ≡ record { from = from_of kept.now; to = to_of kept.now } }
{
    Span {
        from: kept[FROM],
        to: kept[TO],
    }
}

// The entry's pin after it; none if the entry is out of order.
fn placed(kept: &[u64; KEPT], pin: u8, level: u8, cycle: u64) -> Option<Track>
    ensures { MatchOption result (strays kept.now (sourceless pin level cycle) ≡ true) (λ t. (pin < 128) × (strays kept.now (sourceless pin level cycle) ≡ false) × (t ≡ took (from_of kept.now) (to_of kept.now) (track_at kept.now pin) level cycle)) }
{
    if pin > 127 || level > 1 {
        return None;
    }
    let track = load(kept, usize::from(pin));
    if cycle < track.last {
        return None;
    }
    Some(track.took(span_in(kept), u64::from(level), cycle))
}

// One entry. Once there is a number, nothing.
#[tactic(auto, unfolding(crate::specs::Kept::entered))]
fn enter(kept: &mut [u64; KEPT], pin: u8, level: u8, cycle: u64)
    ensures { kept.new ≡ entered kept.old (sourceless pin level cycle) }
{
    if kept[NUMBER] != 0 {
        return;
    }
    match placed(kept, pin, level, cycle) {
        Some(track) => store(kept, usize::from(pin), track),
        None => kept[NUMBER] = u64::from(Refusal::OutOfOrder.number()),
    }
}

// ---- begin

// A pin's bit of the four level words.
#[tactic(auto, unfolding(crate::specs::Shift::level_bit))]
fn level_of(words: &[u32; 4], pin: usize) -> u64
    requires { pin < 128 }
    ensures { result ≡ level_bit words.now pin }
{
    let k = pin / 32;
    u64::from((words[k] >> (pin % 32)) % 2)
}

fn begin_pins(kept: &mut [u64; KEPT], words: &[u32; 4], span: Span)
    ensures { Fresh words.now span.from span.to 128 kept.new }
{
    for pin in 0..128 {
        let level = level_of(words, pin);
        store(kept, pin, span.fresh(level));
    }
}

// A shift begins: every pin's level before the first entry, pin i at bit i mod 32 of word i div 32, and its two cycles.
#[unsafe(no_mangle)]
pub extern "C" fn shift_begin(kept: &mut [u64; KEPT], words: &[u32; 4], from: u64, to: u64)
    ensures { Stands (shift words.now from to) [] kept.new }
{
    let span = Span { from, to };
    begin_pins(kept, words, span);
    kept[FROM] = from;
    kept[TO] = to;
    kept[NUMBER] = span.number();
}

// ---- feed

// The entries of a book more, as many as its shortest slice has places.
#[unsafe(no_mangle)]
pub extern "C" fn shift_feed(kept: &mut [u64; KEPT], pins: &[u8], levels: &[u8], cycles: &[u64])
    ensures kept_after { kept.new ≡ fed kept.old (entries_in (piece pins.now levels.now cycles.now)) }
    ensures stands { (s : Shift) (es : List Entry) → Stands s es kept.old → Stands s (es ++ entries_in (piece pins.now levels.now cycles.now)) kept.new }
{
    // By an index: a zip of three slices would pair pairs.
    let n = pins.len().min(levels.len().min(cycles.len()));
    for i in 0..n {
        enter(kept, pins[i], levels[i], cycles[i]);
    }
}

// ---- end

#[tactic(auto, unfolding(crate::specs::Kept::put_figures))]
fn put_figures(figures: &mut [u64; FIGURES], pin: usize, high: u64, low: u64, edges: u64)
    requires { pin < 128 }
    ensures { figures.new ≡ put_figures figures.old pin (record { high = high; low = low; edges = edges }) }
{
    let at = 3 * pin;
    figures[at] = high;
    figures[at + 1] = low;
    figures[at + 2] = edges;
}

fn write_figures(kept: &[u64; KEPT], figures: &mut [u64; FIGURES])
    ensures { Written kept.now 128 figures.new }
{
    let all = span_in(kept).len();
    for pin in 0..128 {
        let t = load(kept, pin);
        let low = all.saturating_sub(t.high);
        put_figures(figures, pin, t.high, low, t.edges);
    }
}

fn is_high(kept: &[u64; KEPT], pin: usize) -> u32
    requires { pin < 128 }
    ensures { result ≡ (if nat_eq (track_at kept.now pin).level 1 then 1 else 0) }
{
    u32::from(load(kept, pin).level == 1)
}

// The levels of 32 pins as a word, the first pin's in the highest bit.
fn level_word(kept: &[u64; KEPT], first: usize) -> u32
    requires { first + 32 ≤ 128 }
    ensures { (count_ones result + high_tracks kept.now first ≡ high_tracks kept.now (first + 32)) × (result < 4294967296) }
{
    let mut word: u32 = 0;
    for j in 0..32 {
        let bit = is_high(kept, first + j);
        word = word * 2 + bit;
    }
    word
}

fn high_in(kept: &[u64; KEPT], first: usize) -> u32
    requires { first + 32 ≤ 128 }
    ensures { (result + high_tracks kept.now first ≡ high_tracks kept.now (first + 32)) × (result ≤ 32) }
{
    level_word(kept, first).count_ones()
}

fn high_pins(kept: &[u64; KEPT]) -> u32
    ensures { result ≡ high_tracks kept.now 128 }
{
    high_in(kept, 0) + high_in(kept, 32) + high_in(kept, 64) + high_in(kept, 96)
}

// Any number but those of a shift that is well or reversed is that of a book out of order.
#[tactic(auto, unfolding(crate::specs::Kept::number_given))]
fn refusal_in(kept: &[u64; KEPT]) -> Option<Refusal>
    ensures { MatchOption result (number_given (number_kept kept.now) ≡ 0) (λ refusal. (number_given (number_kept kept.now) ≡ number_with refusal) × (number_with refusal ≢ 0)) }
{
    match kept[NUMBER] {
        0 => None,
        9 => Some(Refusal::Reversed),
        _ => Some(Refusal::OutOfOrder),
    }
}

// The report: high, low and edges of pin i at the places 3 i, 3 i + 1, 3 i + 2, and how many pins are high at the end. With 9 or 10 no figure is
// written. The kept words stay: more can be fed, and the shift ended again.
#[unsafe(no_mangle)]
pub extern "C" fn shift_end(kept: &[u64; KEPT], figures: &mut [u64; FIGURES]) -> Summary
    ensures ended { Ended kept.now result figures.old figures.new }
    ensures reports { (s : Shift) (es : List Entry) → Stands s es kept.now → length es < 18446744073709551616 → Reports s es result.number result.high figures.old figures.new }
{
    if let Some(refusal) = refusal_in(kept) {
        let number = refusal.number();
        return Summary { number, high: 0 };
    }
    write_figures(kept, figures);
    let high = high_pins(kept);
    Summary { number: 0, high }
}

// ---- at once

// The report of one book: begin, one feed, end.
#[unsafe(no_mangle)]
pub extern "C" fn shift_report(
    figures: &mut [u64; FIGURES],
    words: &[u32; 4],
    from: u64,
    to: u64,
    pins: &[u8],
    levels: &[u8],
    cycles: &[u64],
) -> Summary
    ensures { Reports (shift words.now from to) (entries_in (piece pins.now levels.now cycles.now)) result.number result.high figures.old figures.new }
{
    let mut kept = [0u64; KEPT];
    shift_begin(&mut kept, words, from, to);
    shift_feed(&mut kept, pins, levels, cycles);
    shift_end(&kept, figures)
}
