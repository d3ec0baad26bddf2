// Why a call is refused. The numbers are those of docs/FORMAT.md, 6.3; an accepted call has the number 0.
ghost use Rattle.std.specs.Prelude.{◌≡◌};
ghost use Rattle.layout.specs.Reasons.{number_of, outcome};

// The reasons, each with its number.
#[derive(Clone, Copy, Debug, PartialEq, Eq, Drop)]
pub enum Refusal {
    BadLength = 1,
    BadSignature = 2,
    BadGeometry = 3,
    BadSelf = 4,
    BadSlot = 5,
    BadChains = 6,
    BadCounts = 7,
    BadJournal = 8,
    BadArgument = 9,
    NotFound = 10,
    NameTaken = 11,
    BadOffset = 12,
    DirectoryFull = 13,
    VolumeFull = 14,
    JournalFull = 15,
    NothingToUndo = 16,
    TooDeep = 17,
    NotEmpty = 18,
    BadList = 19,
    TooManyBlocks = 20,
    BadTableSize = 21,
    BadSettings = 22,
    NoRevision = 23,
    NotSettings = 24,
    RevisionsUsed = 25,
    BadFlags = 26,
    NoMark = 27,
}

impl Refusal {
    // The number of a reason.
    pub fn number(self) -> u32
        ensures { result ≡ number_of self }
    {
        self as u32
    }
}

// The number that an answer gives: of its refusal, or 0.
pub fn outcome<T: Drop>(answer: Result<T, Refusal>) -> u32
    ensures { result ≡ outcome answer }
{
    match answer {
        Ok(_) => 0,
        Err(why) => why.number(),
    }
}
