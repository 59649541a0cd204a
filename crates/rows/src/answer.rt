// What an answer is made of: document 01, "Answer record". `TypeNameError` and `Delimiter` keep the original's names;
// the cases for the file, its records and the buffer are added, and each reason of `InvalidSyntax` is a case of its own.

ghost use Rattle.std.specs.Prelude.{◌≡◌};
ghost use Rattle.rows.specs.Answer.{unread};
ghost use Rattle.rows.specs.Refusals.{feature_detail, named, open_detail, plainly, refusal_of};

#[derive(Clone, Copy, PartialEq, Eq)]
pub enum Delimiter {
    Parenthesis,
    Bracket,
}

// What a type name may use and a standard may lack.
#[derive(Clone, Copy, PartialEq, Eq)]
pub enum Feature {
    LongLong,
    Atomic,
    BitInt,
    Typeof,
    TypeofUnqual,
    Decltype,
    RvalueReference,
    Selector,
    DerivedType,
    Class,
    AssumedTypeOrRank,
}

#[derive(Clone, Copy, PartialEq, Eq)]
pub enum TypeNameError {
    FileTooLong,
    InvalidHead,
    UnknownProfile,
    InvalidRecord {
        offset: u32,
    },
    TooManyRecords,
    ShortBuffer,
    OffsetOver32Bits,
    InvalidNameList,
    Empty,
    // `expected` is the innermost bracket open at the token, if one is.
    UnexpectedClosingDelimiter {
        expected: Option<Delimiter>,
        actual: Delimiter,
        token: u32,
    },
    UnexpectedAngle {
        token: u32,
    },
    TopLevelComma {
        token: u32,
    },
    UnexpectedEndToken {
        token: u32,
    },
    UnclosedDelimiter {
        delimiter: Delimiter,
        token: u32,
    },
    UnclosedAngle {
        token: u32,
    },
    MissingTypeWord,
    InvalidBoundaryToken,
    NestingLimitExceeded,
    UnterminatedGroup,
    MismatchedClosingDelimiter,
    UnexpectedTokenAfterTypeName,
    AllowancePassed,
    ShiftWithoutList,
    EmptyOrUnclosedList,
    NoTypeName,
    NotAvailableInProfile(Feature),
    InvalidRuleTable,
    NoRuleMatches,
}

// A tree of so many nodes, and the steps that were taken.
#[derive(Clone, Copy)]
pub struct Accepted {
    pub nodes: u32,
    pub steps: u32,
}

#[derive(Clone, Copy)]
pub struct Refused {
    pub error: TypeNameError,
    pub steps: u32,
}

// What is refused before a row is read takes no step.
impl From<TypeNameError> for Refused {
    ghost from_gives = { λ error refused. refused ≡ unread error };

    fn from(error: TypeNameError) -> Refused {
        Refused { error, steps: 0 }
    }
}

pub type Answer = Result<Accepted, Refused>;

// A refusal's number, token and detail, as users of the answer record see them.
#[derive(Clone, Copy)]
pub struct Refusal {
    pub number: u32,
    pub token: u32,
    pub detail: u32,
}

// Stands where a refusal names no token: a number, and no `None`, in the answer record that C reads.
pub const NO_TOKEN: u32 = 65535;

fn plain(number: u32) -> Refusal
    ensures { result ≡ plainly number }
{
    at(number, NO_TOKEN)
}

fn at(number: u32, token: u32) -> Refusal
    ensures { result ≡ named number token 0 }
{
    detailed(number, token, 0)
}

fn detailed(number: u32, token: u32, detail: u32) -> Refusal
    ensures { result ≡ named number token detail }
{
    Refusal {
        number,
        token,
        detail,
    }
}

// No `From`: neither `Option` nor `u32` is this crate's.
pub fn open_detail(expected: Option<Delimiter>) -> u32
    ensures { result ≡ open_detail expected }
{
    match expected {
        None => 0,
        Some(Delimiter::Parenthesis) => 1,
        Some(Delimiter::Bracket) => 2,
    }
}

// Named as the other detail is.
pub fn feature_detail(feature: Feature) -> u32
    ensures { result ≡ feature_detail feature }
{
    match feature {
        Feature::LongLong => 1,
        Feature::Atomic => 2,
        Feature::BitInt => 3,
        Feature::Typeof => 4,
        Feature::TypeofUnqual => 5,
        Feature::Decltype => 6,
        Feature::RvalueReference => 7,
        Feature::Selector => 8,
        Feature::DerivedType => 9,
        Feature::Class => 10,
        Feature::AssumedTypeOrRank => 11,
    }
}

// The table of refusals: document 01's, and document 02's new numbers. The definition has this name too: a `From` would have another.
pub fn refusal_of(error: TypeNameError) -> Refusal
    ensures { result ≡ refusal_of error }
{
    match error {
        TypeNameError::FileTooLong => plain(1),
        TypeNameError::InvalidHead => plain(2),
        TypeNameError::UnknownProfile => plain(3),
        TypeNameError::InvalidRecord { offset } => detailed(4, NO_TOKEN, offset),
        TypeNameError::TooManyRecords => plain(5),
        TypeNameError::ShortBuffer => plain(6),
        TypeNameError::OffsetOver32Bits => plain(7),
        TypeNameError::InvalidNameList => plain(8),
        TypeNameError::Empty => plain(10),
        TypeNameError::UnexpectedClosingDelimiter {
            expected,
            actual: _,
            token,
        } => detailed(11, token, open_detail(expected)),
        TypeNameError::UnexpectedAngle { token } => at(12, token),
        TypeNameError::TopLevelComma { token } => at(13, token),
        TypeNameError::UnexpectedEndToken { token } => at(14, token),
        TypeNameError::UnclosedDelimiter {
            delimiter: _,
            token,
        } => at(15, token),
        TypeNameError::UnclosedAngle { token } => at(16, token),
        TypeNameError::MissingTypeWord => plain(17),
        TypeNameError::InvalidBoundaryToken => plain(18),
        TypeNameError::NestingLimitExceeded => plain(20),
        TypeNameError::UnterminatedGroup => plain(21),
        TypeNameError::MismatchedClosingDelimiter => plain(22),
        TypeNameError::UnexpectedTokenAfterTypeName => plain(23),
        TypeNameError::AllowancePassed => plain(25),
        TypeNameError::ShiftWithoutList => plain(26),
        TypeNameError::EmptyOrUnclosedList => plain(27),
        TypeNameError::NoTypeName => plain(30),
        TypeNameError::NotAvailableInProfile(feature) => {
            detailed(40, NO_TOKEN, feature_detail(feature))
        }
        TypeNameError::InvalidRuleTable => plain(50),
        TypeNameError::NoRuleMatches => plain(51),
    }
}
