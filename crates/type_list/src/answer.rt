// The answer to a list of types.

ghost use Rattle.std.specs.Prelude.{◌≡◌};
ghost use Rattle.type_list.specs.ListAnswer.{list_unread};

use rows::answer::TypeNameError;

// How many parts and nodes there are, and the steps that were taken.
#[derive(Clone, Copy)]
pub struct ListAccepted {
    pub parts: u32,
    pub nodes: u32,
    pub steps: u32,
}

// `part`: which part is refused.
#[derive(Clone, Copy)]
pub struct ListRefused {
    pub error: TypeNameError,
    pub steps: u32,
    pub part: u32,
}

// The part of a refusal that is given before there are parts: a number, and no `None`, in the numbers that C reads.
pub const NO_PART: u32 = 65535;

// What is refused before there are parts takes no step.
impl From<TypeNameError> for ListRefused {
    ghost from_gives = { λ error refused. refused ≡ list_unread error };

    fn from(error: TypeNameError) -> ListRefused {
        ListRefused {
            error,
            steps: 0,
            part: NO_PART,
        }
    }
}

pub type ListAnswer = Result<ListAccepted, ListRefused>;
