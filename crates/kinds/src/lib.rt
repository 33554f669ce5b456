// The numbers of slips, pieces and buffers, a slip's state, the refusals and the answers.
#![tactic(auto)]

ghost use Rattle.std.specs.Prelude.{◌≡◌, ◌+◌, ◌*◌, ℕ, ltb, leb, eqb};
ghost use Rattle.kinds.specs.Limits.{most_buffers, most_pieces, most_slips, buffer_size, counted};
ghost use Rattle.kinds.specs.Serial.{last_serial, older, name_with};
ghost use Rattle.kinds.specs.SlipState.{state_of, is_held};
ghost use Rattle.kinds.specs.Refusal.{refusal_code};
ghost use Rattle.kinds.specs.Outcome.{answer_of, answer_of_unit};

// The number of a slip: a handle that a caller holds.
#[derive(Clone, Copy, Default, PartialEq, Eq)]
pub struct SlipNumber(pub u16);

// The serial of a slip, which a caller gives beside its number: a handle's generation.
#[derive(Clone, Copy, Default, PartialEq, Eq)]
pub struct Serial(pub u16);

// A slip as a caller names it, by its number and its serial: a handle with its generation.
#[derive(Clone, Copy, PartialEq, Eq)]
pub struct SlipName {
    pub slip: SlipNumber,
    pub serial: Serial,
}

// The number of a piece: a segment descriptor, as an mbuf or an accessor.
#[derive(Clone, Copy, Default, PartialEq, Eq)]
pub struct PieceNumber(pub u16);

// The number of a buffer: a 512-byte fixed-size cluster with a reference count.
#[derive(Clone, Copy, Default, PartialEq, Eq)]
pub struct BufferNumber(pub u16);

// What a slip holds: nothing, an empty chain, or the chain that a piece heads (a tagged handle entry).
#[derive(Clone, Copy)]
pub enum SlipState {
    Vacant,
    Empty,
    Heads(PieceNumber),
}

// Why a call is refused: the error kinds, each with its code.
#[derive(Clone, Copy, Debug, PartialEq, Eq)]
pub enum Refusal {
    Counts = 1,
    Torn,
    Slip,
    Same,
    Long,
    Range,
    Narrow,
    Slips,
    Pieces,
    Buffers,
    WireList,
}

// What a done step answers: the state its slip is left in, and the number (a success value).
#[derive(Clone, Copy)]
pub struct Step {
    pub state: SlipState,
    pub number: u32,
}

// What a call comes to: done or refused.
pub type Outcome = Result<Step, Refusal>;

// The answer as C receives it: a status code and a return value.
#[repr(C)]
#[derive(Clone, Copy)]
pub struct Answer {
    pub code: u16,
    pub number: u32,
}

// No count is higher, one reference for each piece and each slip: the limit on reference counts.
pub const MOST_COUNT: u16 = PieceNumber::MOST + SlipNumber::MOST;

// A number of a kind, which counts the entries of a table from 0: an index type.
pub trait Number: Copy {
    ghost number: { Self → ℕ };

    ghost MOST: { ℕ };

    // The most entries of a pool: the table's limit.
    const MOST: u16;

    // The number itself.
    fn number(self) -> u16
        ensures { result ≡ number self };

    // The entry of number `n`: an index with its kind.
    fn at(n: u16) -> Self
        ensures { number result ≡ n };

    // Whether a pool may have `n` entries: a range test.
    final fn counted(n: u16) -> bool
        ensures { result ≡ counted MOST n }
    {
        1 <= n && n <= Self::MOST
    }

    // Whether it is one of `count`: an index test.
    final fn below(self, count: u16) -> bool
        ensures { result ≡ ltb (number self) count }
    {
        self.number() < count
    }
}

impl Number for SlipNumber {
    ghost number = { λ s. s.0 };

    ghost MOST = { most_slips };

    const MOST: u16 = 256;

    fn number(self) -> u16 {
        self.0
    }

    fn at(n: u16) -> SlipNumber {
        SlipNumber(n)
    }
}

impl Number for PieceNumber {
    ghost number = { λ s. s.0 };

    ghost MOST = { most_pieces };

    const MOST: u16 = 2048;

    fn number(self) -> u16 {
        self.0
    }

    fn at(n: u16) -> PieceNumber {
        PieceNumber(n)
    }
}

impl Number for BufferNumber {
    ghost number = { λ s. s.0 };

    ghost MOST = { most_buffers };

    const MOST: u16 = 1024;

    fn number(self) -> u16 {
        self.0
    }

    fn at(n: u16) -> BufferNumber {
        BufferNumber(n)
    }
}

impl SlipNumber {
    // The number that is answered for the slip, with its serial: a handle and its generation in one.
    pub fn named(self, serial: Serial) -> u32
        ensures { result ≡ name_with self.0 serial.0 }
    {
        self.0 as u32 + 65536 * serial.0 as u32
    }
}

impl Serial {
    // The last serial: a generation that does not wrap.
    pub const LAST: u16 = 65535;

    // Whether it is the last, at which a vacant slip is spent: a generation used up.
    pub fn last(self) -> bool
        ensures { result ≡ eqb self.0 last_serial }
    {
        self.0 == Serial::LAST
    }

    // The serial once its slip is vacated, 1 more and never past the last: a generation counter that stops.
    pub fn older(self) -> Serial
        ensures { result.0 ≡ older self.0 }
    {
        Serial(self.0.saturating_add(1))
    }
}

impl SlipName {
    // The slip of a number and a serial as C lends them: a handle put together.
    pub fn new(slip: u16, serial: u16) -> SlipName
        ensures { (result.slip.0 ≡ slip) × (result.serial.0 ≡ serial) }
    {
        SlipName {
            slip: SlipNumber(slip),
            serial: Serial(serial),
        }
    }
}

impl BufferNumber {
    // The bytes of a buffer: the cluster size.
    pub const SIZE: u16 = 512;

    // The byte of storage at which the buffer starts: the cluster's base offset.
    pub fn start(self) -> usize
        ensures { result ≡ buffer_size * self.0 }
    {
        BufferNumber::SIZE as usize * self.0 as usize
    }

    // Whether `length` bytes from `offset` lie within a buffer, as whole numbers: a bounds test.
    pub fn holds(offset: u16, length: u16) -> bool
        ensures { result ≡ leb (offset + length) buffer_size }
    {
        offset as u32 + length as u32 <= BufferNumber::SIZE as u32
    }

    // Whether `n` bytes fit one buffer: a size test.
    pub fn fits(n: u32) -> bool
        ensures { result ≡ leb n buffer_size }
    {
        n <= BufferNumber::SIZE as u32
    }
}

impl SlipState {
    // Whether the slip holds a chain, if an empty one: a handle in use.
    pub fn held(self) -> bool
        ensures { result ≡ is_held self }
    {
        match self {
            SlipState::Vacant => false,
            SlipState::Empty | SlipState::Heads(_) => true,
        }
    }
}

// The state that a slip's number stands for: the decoding of a tagged handle entry.
impl From<u16> for SlipState {
    ghost from_gives = { λ raw state. state ≡ state_of raw };

    fn from(raw: u16) -> SlipState {
        match raw {
            0 => SlipState::Vacant,
            1 => SlipState::Empty,
            _ => SlipState::Heads(PieceNumber(raw - 2)),
        }
    }
}

// The code of a refusal: an error number.
impl From<Refusal> for u16 {
    ghost from_gives = { λ why code. code ≡ refusal_code why };

    fn from(why: Refusal) -> u16 {
        why as u16
    }
}

// The answer of an outcome: its status code and its return value.
impl From<Outcome> for Answer {
    ghost from_gives = { λ outcome answer. answer ≡ answer_of outcome };

    fn from(outcome: Outcome) -> Answer {
        match outcome {
            Ok(step) => Answer {
                code: 0,
                number: step.number,
            },
            Err(why) => Answer {
                code: why.into(),
                number: 0,
            },
        }
    }
}

// The answer of a call with no step, done or refused: its status code, and no return value.
impl From<Result<(), Refusal>> for Answer {
    ghost from_gives = { λ outcome answer. answer ≡ answer_of_unit outcome };

    fn from(outcome: Result<(), Refusal>) -> Answer {
        let code = match outcome {
            Ok(()) => 0,
            Err(why) => why.into(),
        };
        Answer { code, number: 0 }
    }
}
