//! What a call answers when it refuses: a reason, a place and a depth.
#![tactic(auto)]

ghost use Rattle.std.specs.Prelude.{◌≡◌, Some};
ghost use Rattle.refusal.specs.Reasons.{number_of, refused_at, closed_at, CauseOf, empty_part};
ghost use Rattle.refusal.specs.Texts.{refusal_text};

mod held;

pub use crate::held::Cause;
use std::fmt;

/// Why something is refused. Each reason is defined by its number.
#[derive(Clone, Copy, PartialEq, Eq, Debug)]
pub enum Reason {
    /// An image has fewer than 4 bytes.
    ImageShort,
    /// An image is of another kind than its loader reads.
    KindOther,
    /// An image has a count that its kind does not allow.
    CountOutside,
    /// An image ends before its last pair does.
    PairsCut,
    /// A part begins before the end of the one before, or ends outside the image.
    PairMisplaced,
    /// A part has a length that its kind does not allow.
    LengthWrong,
    /// A name or an exit is ill-formed.
    PartIllFormed,
    /// A name stood before.
    NameRepeated,
    /// A text has more than 512 bytes.
    TextLong,
    /// A byte begins nothing.
    ByteUnknown,
    /// A name has more than 16 bytes.
    NameLong,
    /// A mark is ill-formed or over 255.
    MarkIllFormed,
    /// A name is not in the event list.
    NameUnlisted,
    /// A sign, or the end, is not allowed where it stands.
    SignMisplaced,
    /// A bracket is the seventeenth deep.
    BracketsDeep,
    /// A step is the sixty-fifth.
    StepsMany,
    /// The start is not below the number of states.
    StartOutside,
    /// There are too few rows.
    RowsFew,
    /// States or places are not those of the opening.
    OpeningOther,
    /// The table of added exits is full.
    TableFull,
    /// The source or the target of an added exit is not below the number of states.
    EntryOutside,
    /// A state has 1,024 exits.
    ExitsFull,
    /// An event is over 63.
    EventHigh,
    /// The number of blocks is not 1 to 1,365.
    BlocksOutside,
    /// There is no such entry.
    EntryMissing,
    /// A word is missing or unknown, or a number is too large.
    WordWrong,
    /// The state is not below the number of states.
    StateOutside,
    /// The state is closed, by this cause.
    Closed(Cause),
}

/// Why and where. The depth is 0 but where a closed state is met: there it is how many layers stand above the graph that closed it.
#[derive(Clone, Copy, PartialEq, Eq, Debug)]
pub struct Refusal {
    pub reason: Reason,
    pub place: usize,
    pub depth: u8,
}

/// A number that no cause has.
#[derive(Clone, Copy, PartialEq, Eq, Debug)]
pub struct NoCause(pub u8);

impl TryFrom<u8> for Cause {
    type Error = NoCause;

    ghost try_from_gives = { CauseOf };

    /// The cause of this number, which is there for 31 to 39 only.
    fn try_from(number: u8) -> Result<Cause, NoCause> {
        if number < 31 || number > 39 {
            return Err(NoCause(number));
        }
        Ok(Cause { number })
    }
}

impl Cause {
    /// The cause of a state whose part of an image is empty, 31.
    pub fn empty_part() -> Cause
        ensures { result ≡ empty_part }
    {
        Cause { number: 31 }
    }

    /// Its number, 31 to 39.
    pub fn number(self) -> u8
        ensures { result ≡ self.number }
    {
        self.number
    }
}

impl Reason {
    /// The number by which the reason is defined.
    pub fn number(self) -> u8
        ensures { result ≡ number_of self }
    {
        match self {
            Reason::ImageShort => 1,
            Reason::KindOther => 2,
            Reason::CountOutside => 3,
            Reason::PairsCut => 4,
            Reason::PairMisplaced => 5,
            Reason::LengthWrong => 6,
            Reason::PartIllFormed => 7,
            Reason::NameRepeated => 8,
            Reason::TextLong => 10,
            Reason::ByteUnknown => 11,
            Reason::NameLong => 12,
            Reason::MarkIllFormed => 13,
            Reason::NameUnlisted => 14,
            Reason::SignMisplaced => 15,
            Reason::BracketsDeep => 16,
            Reason::StepsMany => 17,
            Reason::StartOutside => 20,
            Reason::RowsFew => 21,
            Reason::OpeningOther => 22,
            Reason::TableFull => 23,
            Reason::EntryOutside => 24,
            Reason::ExitsFull => 25,
            Reason::EventHigh => 26,
            Reason::BlocksOutside => 27,
            Reason::EntryMissing => 28,
            Reason::WordWrong => 29,
            Reason::StateOutside => 30,
            Reason::Closed(cause) => cause.number,
        }
    }
}

impl Refusal {
    /// A refusal of depth 0, for every reason but a closed state.
    pub fn at(reason: Reason, place: usize) -> Refusal
        ensures { result ≡ refused_at reason place }
    {
        Refusal {
            reason,
            place,
            depth: 0,
        }
    }

    /// State `state` is closed by this cause, this many layers below.
    pub fn closed(cause: Cause, state: usize, depth: u8) -> Refusal
        ensures { result ≡ closed_at cause state depth }
    {
        Refusal {
            reason: Reason::Closed(cause),
            place: state,
            depth,
        }
    }
}

impl fmt::Display for Refusal {
    ghost output = { λ why. Some (refusal_text why) };

    /// Number, place and depth.
    fn fmt<W: fmt::Write>(&self, f: &mut fmt::Formatter<W>) -> fmt::Result {
        let number = self.reason.number();
        let place = self.place;
        let depth = self.depth;
        write!(f, "{number} {place} {depth}")
    }
}
