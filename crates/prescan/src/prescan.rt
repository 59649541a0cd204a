// The prescan of a row by its token kinds.

ghost use Rattle.std.specs.Prelude.{◌<◌, ◌≤◌, ◌^◌, length};
ghost use Rattle.prescan.specs.Prescan.{prescan};
ghost use Rattle.prescan.specs.Prescanned.{PrescanSays};

use crate::boundary::check_row_end;
use crate::scan::{ScanState, is_ordinary, take};
use rows::answer::{NO_TOKEN, TypeNameError};
use rows::kinds;

// Refusals 10 to 18. `stack` is lent for the openers' token numbers, since there is no heap; what it holds in the end is free.
pub fn prescan_row(language: u8, kinds: &[u8], stack: &mut [u32]) -> Result<(), TypeNameError>
    requires { (length kinds.now ≤ length stack.old) × (length kinds.now < 2 ^ 32) }
    ensures { PrescanSays result (prescan language kinds.now) }
{
    if kinds.len() == 0 {
        return Err(TypeNameError::Empty);
    }
    let mut state = ScanState {
        depth: 0,
        angles: 0,
        first: NO_TOKEN,
        word: false,
        last: kinds::NO_TOKEN_KIND,
    };
    for (at, &kind) in kinds.iter().enumerate() {
        // Most tokens change neither brackets nor angles.
        if kind == kinds::IDENTIFIER {
            state.word = true;
            state.last = kind;
        } else if is_ordinary(kind) {
            state.last = kind;
        } else {
            // Not by `?`: with it the state goes through memory, which takes half as long again.
            match take(language, kinds, stack, state, at) {
                Ok(next) => state = next,
                Err(error) => return Err(error),
            }
        }
    }
    check_row_end(language, kinds, stack, state)
}
