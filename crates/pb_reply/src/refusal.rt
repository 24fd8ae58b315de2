ghost use Rattle.std.specs.Prelude.{◌≡◌, ◌≤◌};
ghost use Rattle.pb_reply.specs.Refusals.{name_of, refusal_number};

use pb_names::Name;
use thiserror::Error;

/// The names of the refusals in the order of their numbers, from 1.
pub const REFUSAL_NAMES: [&str; 27] = [
    "Busy",
    "NotOpen",
    "AlreadyOpen",
    "BadKey",
    "BadSpan",
    "TooLarge",
    "NoTable",
    "Overlap",
    "Outside",
    "TooMany",
    "NumbersSpent",
    "NoObject",
    "NotATable",
    "SuffixClash",
    "NoHandle",
    "Gone",
    "NoPin",
    "NameTaken",
    "WrongStore",
    "Damaged",
    "Missing",
    "DiskFault",
    "BucketFault",
    "NoMemory",
    "Idle",
    "Dropped",
    "BadTable",
];

/// Why a line of a script was not carried out, with the values that its reply carries.
#[derive(Clone, Copy, Debug, Error)]
pub enum Refusal {
    /// The lane has a started command that is unfinished.
    #[error("refused 1 Busy")]
    Busy,
    /// The store is closed or down.
    #[error("refused 2 NotOpen")]
    NotOpen,
    #[error("refused 3 AlreadyOpen")]
    AlreadyOpen,
    /// A key is none, or a synthetic prefix or suffix is out of form.
    #[error("refused 4 BadKey")]
    BadKey,
    /// Two ends are no span.
    #[error("refused 5 BadSpan")]
    BadSpan,
    /// A value, an object, a mapped key or the upper layer of a handle passes its limit.
    #[error("refused 6 TooLarge")]
    TooLarge,
    /// No table of the script has the name.
    #[error("refused 7 NoTable")]
    NoTable,
    /// The hulls of two tables of the command overlap; their places, from 0.
    #[error("refused 8 Overlap {0} {1}")]
    Overlap(u64, u64),
    /// A table of the command is not inside its span; its place, from 0.
    #[error("refused 9 Outside {0}")]
    Outside(u64),
    /// There would be more tables, handles or pins than this limit.
    #[error("refused 10 TooMany {0}")]
    TooMany(u64),
    /// The numbers or the count would reach 2^62.
    #[error("refused 11 NumbersSpent")]
    NumbersSpent,
    /// The external object is not there.
    #[error("refused 12 NoObject")]
    NoObject,
    /// The external object holds no table.
    #[error("refused 13 NotATable")]
    NotATable,
    /// With the suffix this row would have the key of the row before it; its place, from 0.
    #[error("refused 14 SuffixClash {0}")]
    SuffixClash(u64),
    /// No handle has the name.
    #[error("refused 15 NoHandle")]
    NoHandle,
    /// This marker of the lender was absent.
    #[error("refused 16 Gone {}", .0.as_str())]
    Gone(Name),
    /// No pin has the name.
    #[error("refused 17 NoPin")]
    NoPin,
    /// An object, a handle or a pin has the name already.
    #[error("refused 18 NameTaken")]
    NameTaken,
    /// The catalogue of the folder is that of another store, this one.
    #[error("refused 19 WrongStore {0}")]
    WrongStore(u64),
    /// This file or object is not as the formats say, or is absent.
    #[error("refused 20 Damaged {}", .0.as_str())]
    Damaged(Name),
    /// This object, which the store needs, is absent.
    #[error("refused 21 Missing {}", .0.as_str())]
    Missing(Name),
    #[error("refused 22 DiskFault")]
    DiskFault,
    #[error("refused 23 BucketFault")]
    BucketFault,
    #[error("refused 24 NoMemory")]
    NoMemory,
    /// The lane has no started command, and nothing waits for release.
    #[error("refused 25 Idle")]
    Idle,
    /// This table is no longer where the compaction needs it, or is in its way.
    #[error("refused 26 Dropped {0}")]
    Dropped(u64),
    /// This line of the table block is out of form; its place, from 0.
    #[error("refused 27 BadTable {0}")]
    BadTable(u64),
}

impl Refusal {
    /// The number, from 1 to 27.
    pub fn number(&self) -> u64
        ensures { result ≡ refusal_number self.now }
    {
        match self {
            Refusal::Busy => 1,
            Refusal::NotOpen => 2,
            Refusal::AlreadyOpen => 3,
            Refusal::BadKey => 4,
            Refusal::BadSpan => 5,
            Refusal::TooLarge => 6,
            Refusal::NoTable => 7,
            Refusal::Overlap(_, _) => 8,
            Refusal::Outside(_) => 9,
            Refusal::TooMany(_) => 10,
            Refusal::NumbersSpent => 11,
            Refusal::NoObject => 12,
            Refusal::NotATable => 13,
            Refusal::SuffixClash(_) => 14,
            Refusal::NoHandle => 15,
            Refusal::Gone(_) => 16,
            Refusal::NoPin => 17,
            Refusal::NameTaken => 18,
            Refusal::WrongStore(_) => 19,
            Refusal::Damaged(_) => 20,
            Refusal::Missing(_) => 21,
            Refusal::DiskFault => 22,
            Refusal::BucketFault => 23,
            Refusal::NoMemory => 24,
            Refusal::Idle => 25,
            Refusal::Dropped(_) => 26,
            Refusal::BadTable(_) => 27,
        }
    }

    /// The name, as `NotOpen`.
    pub fn name(&self) -> &'static str
        ensures { result.now ≡ name_of self.now }
    {
        REFUSAL_NAMES[self.number() as usize - 1]
    }
}
