// The call list as text (docs/CALLS.md): numbers read and written digit by digit, words, and the numbers of each call.
#![tactic(auto)]

ghost use Rattle.std.specs.Prelude.{◌≡◌, ◌≢◌, ◌+◌, ◌-◌, ◌*◌, ◌≤◌, ◌<◌, ◌^◌, length, min, slice_index_or, [], Some, IfSome, SomeIff, MatchResult};
ghost use Rattle.text.specs.Numbers.{digit_of, next_of, more_of, large_of, first_of, second_of, told_of, start};
ghost use Rattle.text.specs.Words.{is_space, same_word, call_of, field_of, shapes, number_of, word_of, words_of, reason_of};
ghost use Rattle.text.specs.Digits.{places_of, last_digits, over, Wrote};
ghost use Rattle.text.specs.Lines.{is_returned, next_piece, next_place};
ghost use Rattle.text.specs.declared.Place.TheVariants as Place;
ghost use Rattle.text.specs.declared.Reason.TheVariants as Reason;

// Why a word in a number's place is no number of 64 bits.
#[derive(Clone, Copy, Debug, PartialEq, Eq)]
pub enum NumberError {
    NotANumber,
    TooLarge,
}

// Why a line is no call (docs/CALLS.md, "What ends the run").
#[derive(Clone, Copy, Debug, PartialEq, Eq)]
pub enum Reason {
    UnknownWord,
    MissingNumber,
    SurplusNumber,
    NotANumber,
    TooLarge,
}

impl Reason {
    // The words that tell it.
    pub fn words(self) -> &'static str
        ensures { result.now ≡ words_of self }
    {
        match self {
            Reason::UnknownWord => "unknown word",
            Reason::MissingNumber => "missing number",
            Reason::SurplusNumber => "surplus number",
            Reason::NotANumber => "not a number",
            Reason::TooLarge => "number too large",
        }
    }
}

impl From<NumberError> for Reason {
    ghost from_gives = { λ e r. r ≡ reason_of e };

    fn from(e: NumberError) -> Reason {
        match e {
            NumberError::NotANumber => Reason::NotANumber,
            NumberError::TooLarge => Reason::TooLarge,
        }
    }
}

// How far a word has been read: no byte, a single 0, a 0x, digits, digits of a number that 64 bits do not hold, or what is no
// number.
#[derive(Clone, Copy, Debug, PartialEq, Eq)]
pub enum Reading {
    Empty,
    Zero,
    Prefix,
    Digits { base: u64, value: u64 },
    Large { base: u64 },
    Wrong,
}

// The digit that a byte is, in either case.
#[tactic(auto, unfolding(crate::specs::Numbers::digit_of))]
pub fn digit(b: u8) -> Option<u64>
    ensures { result ≡ digit_of b }
{
    match b {
        b'0'..=b'9' => Some((b - b'0') as u64),
        b'A'..=b'F' => Some((b - b'A') as u64 + 10),
        b'a'..=b'f' => Some((b - b'a') as u64 + 10),
        _ => None,
    }
}

// A value with a digit more behind it, if 64 bits hold it.
fn appended(base: u64, value: u64, digit: u64) -> Option<u64>
    ensures { SomeIff result (value * base + digit < 2 ^ 64) (value * base + digit) }
{
    value.checked_mul(base)?.checked_add(digit)
}

// One digit more behind those of a value.
#[tactic(auto, unfolding(crate::specs::Numbers::more_of, crate::specs::Numbers::held))]
fn more(base: u64, value: u64, b: u8) -> Reading
    ensures { result ≡ more_of base value b }
{
    match digit(b) {
        Some(d) if d < base => match appended(base, value, d) {
            Some(value) => Reading::Digits { base, value },
            None => Reading::Large { base },
        },
        _ => Reading::Wrong,
    }
}

// One digit more behind digits that are too many.
#[tactic(auto, unfolding(crate::specs::Numbers::large_of))]
fn large(base: u64, b: u8) -> Reading
    ensures { result ≡ large_of base b }
{
    match digit(b) {
        Some(d) if d < base => Reading::Large { base },
        _ => Reading::Wrong,
    }
}

// The first byte of a word: a 0 may begin a 0x.
#[tactic(auto, unfolding(crate::specs::Numbers::first_of))]
fn first(b: u8) -> Reading
    ensures { result ≡ first_of b }
{
    match b {
        b'0' => Reading::Zero,
        _ => more(10, 0, b),
    }
}

// The byte behind a single 0.
#[tactic(auto, unfolding(crate::specs::Numbers::second_of))]
fn second(b: u8) -> Reading
    ensures { result ≡ second_of b }
{
    match b {
        b'x' | b'X' => Reading::Prefix,
        _ => more(10, 0, b),
    }
}

impl Reading {
    // No byte of a word.
    pub fn new() -> Reading
        ensures { result ≡ start }
    {
        Reading::Empty
    }

    // A byte more of the word. Compiled into the readers: handed on through memory, a list of calls takes half as long again.
    #[inline(always)]
    pub fn next(self, b: u8) -> Reading
        ensures { result ≡ next_of self b }
    {
        match self {
            Reading::Empty => first(b),
            Reading::Zero => second(b),
            Reading::Prefix => more(16, 0, b),
            Reading::Digits { base, value } => more(base, value, b),
            Reading::Large { base } => large(base, b),
            Reading::Wrong => Reading::Wrong,
        }
    }

    // What the word is, if it ends here.
    pub fn told(self) -> Result<u64, NumberError>
        ensures { result ≡ told_of self }
    {
        match self {
            Reading::Zero => Ok(0),
            Reading::Digits { value, .. } => Ok(value),
            Reading::Large { .. } => Err(NumberError::TooLarge),
            Reading::Empty | Reading::Prefix | Reading::Wrong => Err(NumberError::NotANumber),
        }
    }
}

// A number of 32 bits.
pub fn short(x: u64) -> Result<u32, Reason>
    ensures { MatchResult result (λ y. y ≡ x) (λ e. (2 ^ 32 ≤ x) × (e ≡ Reason.TooLarge)) }
{
    u32::try_from(x).or(Err(Reason::TooLarge))
}

// How many decimal digits a number has.
#[tactic(auto, using(crate::proofs::ReadsBack::places_log, crate::proofs::ReadsBack::places_zero))]
pub fn places(n: u64) -> usize
    ensures { result ≡ places_of n }
{
    match n.checked_ilog10() {
        Some(power) => power as usize + 1,
        None => 1,
    }
}

// Lays the last digits of a number over all these bytes.
fn spell(n: u64, out: &mut [u8])
    ensures { out.new ≡ last_digits (length out.old) n }
{
    let mut rest = n;
    for i in (0..out.len()).rev() {
        out[i] = b'0' + (rest % 10) as u8;
        rest /= 10;
    }
}

// Writes the decimal digits of a number from a place on, if they fit: the place behind them.
pub fn write_number(n: u64, out: &mut [u8], at: usize) -> Option<usize>
    ensures { Wrote n at out.old out.new result }
{
    let end = at.checked_add(places(n))?;
    if out.len() < end {
        return None;
    }
    spell(n, &mut out[at..end]);
    Some(end)
}

// Whether a byte parts words.
pub fn is_space(b: u8) -> bool
    ensures { result ≡ is_space b }
{
    matches!(b, b' ' | b'\t')
}

// What a byte of a text is: nothing, a letter of a word, what ends a word, or what ends a line.
#[derive(Clone, Copy, Debug, PartialEq, Eq)]
pub enum Piece {
    Nothing,
    Letter,
    WordEnd,
    LineEnd,
}

// Where the next byte of a line is: among words, behind a carriage return, which belongs to the line's end or else to a word, or in a comment.
#[derive(Clone, Copy, Debug, PartialEq, Eq)]
pub enum Place {
    Words,
    CarriageReturn,
    Comment,
}

// The lines of a text (docs/CALLS.md), byte by byte: the number of the line, and where its next byte is.
#[derive(Clone, Copy, Debug)]
pub struct Lines {
    line: u64,
    place: Place,
}

impl Lines {
    // Before the first byte.
    pub fn new() -> Lines
        ensures line { result.line ≡ 1 }
        ensures place { result.place ≡ Place.Words }
    {
        Lines {
            line: 1,
            place: Place::Words,
        }
    }

    // The number of the line.
    pub fn line(&self) -> u64
        ensures { result ≡ self.now.line }
    {
        self.line
    }

    // What the next byte is, where it leaves the place as it is: a letter among words, a comment's byte. A reader asks for it first, for speed: these are
    // most bytes, and without it a comment takes up to twice as long. What parts words, begins a comment or ends a line is at or below `#`.
    #[tactic(auto, unfolding(crate::specs::Lines::piece_of, crate::specs::Lines::place_of, crate::specs::Words::is_space))]
    pub fn unmoved(&self, b: u8) -> Option<Piece>
        ensures unmoved { IfSome result (λ piece. (next_piece self.now.place b ≡ piece) × (next_place self.now.place b ≡ self.now.place)) }
        ensures letter { self.now.place ≡ Place.Words → 35 < b → result ≡ Some Piece.Letter }
        ensures comment { self.now.place ≡ Place.Comment → b ≢ 10 → result ≡ Some Piece.Nothing }
    {
        match self.place {
            Place::Words if b'#' < b => Some(Piece::Letter),
            Place::Comment if b != b'\n' => Some(Piece::Nothing),
            _ => None,
        }
    }

    // Whether the carriage return before the next byte is a letter.
    pub fn is_returned(&self, b: u8) -> bool
        ensures { result ≡ is_returned self.now.place b }
    {
        self.place == Place::CarriageReturn && b != b'\n'
    }

    // What the next byte is.
    #[tactic(auto, unfolding(crate::specs::Lines::piece_of, crate::specs::Lines::place_of))]
    pub fn next(&mut self, b: u8) -> Piece
        ensures piece { result ≡ next_piece self.old.place b }
        ensures place { self.new.place ≡ next_place self.old.place b }
        ensures line { self.new.line ≡ self.old.line }
    {
        let (place, piece) = match (self.place, b) {
            (_, b'\n') => (Place::Words, Piece::LineEnd),
            (Place::Comment, _) => (Place::Comment, Piece::Nothing),
            (_, b'\r') => (Place::CarriageReturn, Piece::Nothing),
            (_, b'#') => (Place::Comment, Piece::WordEnd),
            _ if is_space(b) => (Place::Words, Piece::WordEnd),
            _ => (Place::Words, Piece::Letter),
        };
        self.place = place;
        piece
    }

    // The line has ended, or the input: the next one begins.
    pub fn end(&mut self)
        ensures line { self.new.line ≡ min (self.old.line + 1) 18446744073709551615 }
        ensures place { self.new.place ≡ Place.Words }
    {
        self.line = self.line.saturating_add(1);
        self.place = Place::Words;
    }
}

// Whether two words are the same.
#[tactic(auto, using(crate::proofs::WordLaws::same_pointwise))]
pub fn same(a: &[u8], b: &[u8]) -> bool
    ensures { result ≡ same_word a.now b.now }
{
    a == b
}

// The calls of the table (docs/CALLS.md), each with its number: the board's, then what asks the board nothing.
#[derive(Clone, Copy, Debug, PartialEq, Eq)]
pub enum Command {
    Setup,
    Clock,
    Enable,
    Pin,
    Drive,
    ResetPins,
    Read,
    Write,
    Peek,
    Reset,
    Deliver,
    Booked,
    Next,
    Level,
    Volts,
    Line,
    Time,
    Clear,
    Why,
    Pilot,
    Record,
    Unrecord,
    Unrecord1,
}

// What stands in a number's place: a number of 32 bits, one of 64, one that is at most 3, or bytes.
#[derive(Clone, Copy, Debug, PartialEq, Eq)]
pub enum Operand {
    Short,
    Wide,
    Kind,
    Bytes,
}

// The call that a first word names.
#[tactic(auto, using(crate::proofs::WordLaws::found))]
pub fn call_of(word: &[u8]) -> Option<Command>
    ensures { result ≡ call_of word.now }
{
    Command::ALL
        .iter()
        .find(|command| same(word, command.word()))
        .copied()
}

impl Command {
    // All, in the table's order.
    pub const ALL: [Command; 23] = [
        Command::Setup,
        Command::Clock,
        Command::Enable,
        Command::Pin,
        Command::Drive,
        Command::ResetPins,
        Command::Read,
        Command::Write,
        Command::Peek,
        Command::Reset,
        Command::Deliver,
        Command::Booked,
        Command::Next,
        Command::Level,
        Command::Volts,
        Command::Line,
        Command::Time,
        Command::Clear,
        Command::Why,
        Command::Pilot,
        Command::Record,
        Command::Unrecord,
        Command::Unrecord1,
    ];

    // The word that names it.
    pub fn word(self) -> &'static [u8]
        ensures { result.now ≡ word_of self }
    {
        match self {
            Command::Setup => b"setup",
            Command::Clock => b"clock",
            Command::Enable => b"enable",
            Command::Pin => b"pin",
            Command::Drive => b"drive",
            Command::ResetPins => b"reset-pins",
            Command::Read => b"read",
            Command::Write => b"write",
            Command::Peek => b"peek",
            Command::Reset => b"reset",
            Command::Deliver => b"deliver",
            Command::Booked => b"booked",
            Command::Next => b"next",
            Command::Level => b"level",
            Command::Volts => b"volts",
            Command::Line => b"line",
            Command::Time => b"time",
            Command::Clear => b"clear",
            Command::Why => b"why",
            Command::Pilot => b"pilot",
            Command::Record => b"record",
            Command::Unrecord => b"unrecord",
            Command::Unrecord1 => b"unrecord1",
        }
    }

    // Its number: its place in the table.
    pub fn number(self) -> u8
        ensures { result ≡ number_of self }
    {
        self as u8
    }

    // What stands in the places of its numbers, in order: of `setup` in those before its timers.
    pub fn operands(self) -> &'static [Operand]
        ensures { result.now ≡ slice_index_or shapes (number_of self) [] }
    {
        match self {
            Command::Setup => &[
                Operand::Wide,
                Operand::Wide,
                Operand::Short,
                Operand::Short,
                Operand::Short,
            ],
            Command::Clock => &[
                Operand::Wide,
                Operand::Wide,
                Operand::Short,
                Operand::Short,
                Operand::Short,
                Operand::Short,
                Operand::Short,
                Operand::Short,
                Operand::Wide,
            ],
            Command::Enable => &[Operand::Short, Operand::Short],
            Command::Pin => &[
                Operand::Short,
                Operand::Short,
                Operand::Short,
                Operand::Short,
                Operand::Short,
                Operand::Short,
                Operand::Short,
                Operand::Wide,
                Operand::Wide,
            ],
            Command::Drive => &[
                Operand::Short,
                Operand::Kind,
                Operand::Wide,
                Operand::Wide,
                Operand::Wide,
            ],
            Command::ResetPins => &[Operand::Wide, Operand::Wide],
            Command::Read => &[
                Operand::Short,
                Operand::Short,
                Operand::Short,
                Operand::Wide,
            ],
            Command::Write => &[
                Operand::Short,
                Operand::Short,
                Operand::Short,
                Operand::Short,
                Operand::Wide,
                Operand::Wide,
            ],
            Command::Peek => &[Operand::Short, Operand::Short, Operand::Wide],
            Command::Reset => &[Operand::Short, Operand::Wide, Operand::Wide],
            Command::Deliver => &[Operand::Short, Operand::Wide, Operand::Wide],
            Command::Booked => &[Operand::Short],
            Command::Next => &[],
            Command::Level => &[Operand::Short],
            Command::Volts => &[Operand::Short],
            Command::Line => &[Operand::Short],
            Command::Time => &[Operand::Wide],
            Command::Clear => &[Operand::Short],
            Command::Why => &[Operand::Short, Operand::Wide],
            Command::Pilot => &[Operand::Short, Operand::Short],
            Command::Record => &[
                Operand::Wide,
                Operand::Wide,
                Operand::Wide,
                Operand::Wide,
                Operand::Wide,
                Operand::Wide,
                Operand::Wide,
                Operand::Wide,
                Operand::Wide,
            ],
            Command::Unrecord => &[Operand::Bytes],
            Command::Unrecord1 => &[Operand::Bytes],
        }
    }

    // What stands in place k of its numbers.
    pub fn operand(self, k: usize) -> Option<Operand>
        ensures { result ≡ field_of (number_of self) k }
    {
        self.operands().get(k).copied()
    }
}
