// The refusals of the calls on a volume file (VOLUME-FILE.md, 4). They are reasons of their own, because a volume file is no image.
ghost use Rattle.std.specs.Prelude.{◌≡◌};
ghost use Rattle.volume_file.specs.Reasons.{number_of, outcome};

// Why a call is refused.
#[derive(Clone, Copy, Debug, PartialEq, Eq, Drop)]
pub enum Refusal {
    // It is shorter than its first two sectors.
    TooShort = 1,

    // The header is none, or the sizes asked for are out of their ranges.
    BadHeader = 2,

    // Its length is not the one of its n, m and x.
    BadLength = 3,

    // The log counts more sectors than the home has.
    BadCount = 4,

    // The log's addresses do not rise, or one of them is no home sector.
    BadAddress = 5,

    // The log waits: it must be recovered first.
    LogWaits = 6,

    // Image, journal or the program's own bytes are not as long as their places.
    ImageLength = 7,
    JournalLength = 8,
    OwnLength = 9,
}

impl Refusal {
    // The number of a reason.
    pub fn number(self) -> u32
        ensures { result ≡ number_of self }
    {
        self as u32
    }
}

// The number that an answer gives: of its refusal, or 0.
pub fn outcome<T: Drop>(answer: Result<T, Refusal>) -> u32
    ensures { result ≡ outcome answer }
{
    match answer {
        Ok(_) => 0,
        Err(why) => why.number(),
    }
}
