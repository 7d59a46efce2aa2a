// The order of checks (requirements, C): a refusal is the first check that fails, and its number is what callers in C are told.
#![tactic(auto)]

ghost use Rattle.std.specs.Prelude.{◌≡◌};
ghost use Rattle.checking.specs.Refusals.{number_of, refusal_number};

// What a call refuses, each with the number of its check.
#[derive(Clone, Copy, Debug, PartialEq, Eq)]
pub enum Refusal {
    // A sheet with too few or too many bytes.
    SheetLength = 1,
    TooManyJobs = 2,
    ModuleCount = 3,
    RecordOffset = 4,
    // A record with a field outside its range, or an earlier-job bit of no job.
    WrongRecord = 5,
    LabelLengths = 6,
    WrongLabel = 7,
    // A job that needs more modules than there are.
    OverWide = 8,
    // A job that would have to end before itself.
    Circular = 9,
    // A lent buffer, for a card or a sheet, that is too short.
    ShortBuffer = 10,
    // Lists of shares and ceilings of two lengths, or of a length that no desk has.
    ControllerCount = 11,
    // A limit, or a share or ceiling, outside its range.
    WrongShares = 12,
    SharesAboveLimit = 13,
    // No such job or controller, or a desk or runner that cannot be.
    NotThere = 14,
    NoPower = 15,
    AboveCeiling = 16,
    AboveLimit = 17,
    AboveHolding = 18,
    LongChangeover = 19,
    // No module count with which a plan ends by the minute.
    NoCountServes = 20,
    // New figures below what a controller holds.
    HoldingAboveCeiling = 21,
    HoldingsAboveLimit = 22,
    NoJobs = 23,
    ModuleSize = 24,
    // A controller with too small a share for the plan, or with a holding at the start.
    WrongController = 25,
    WrongCard = 26,
}

impl Refusal {
    // Its number.
    pub fn number(self) -> u32
        ensures { result ≡ number_of self }
    {
        self as u32
    }
}

// The number of the refusal, or 0 where there is none.
pub fn number(outcome: Result<(), Refusal>) -> u32
    ensures { result ≡ refusal_number outcome }
{
    match outcome {
        Ok(()) => 0,
        Err(refusal) => refusal.number(),
    }
}
