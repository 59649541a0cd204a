// After the last token: document 01, "Row end".

ghost use Rattle.std.specs.Prelude.{◌≡◌, ◌-◌, ◌<◌, get_or, length};
ghost use Rattle.rows.specs.Kinds.{NoToken};
ghost use Rattle.prescan.specs.Prescan.{row_end, valid_end, valid_start};
ghost use Rattle.prescan.specs.Prescanned.{PrescanSays};
ghost use Rattle.prescan.specs.ScanState.{Sound, openers, scan_of};

use crate::scan::{ScanState, delimiter};
use rows::answer::TypeNameError;
use rows::{kinds, languages};

fn is_valid_start(first: u8) -> bool
    ensures { result ≡ valid_start first }
{
    (first == kinds::IDENTIFIER) | (first == kinds::SCOPE)
}

fn is_valid_end(language: u8, before: u8, last: u8) -> bool
    ensures { result ≡ valid_end language before last }
{
    (last == kinds::IDENTIFIER)
        | (last == kinds::RIGHT_PAREN)
        | (last == kinds::RIGHT_BRACKET)
        | (last == kinds::GREATER)
        | (last == kinds::SHIFT_RIGHT)
        | (last == kinds::STAR)
        | (!(language == languages::C)
            & ((last == kinds::AMPERSAND) | (last == kinds::LOGICAL_AND)))
        | ((language == languages::FORTRAN) & (before == kinds::STAR) & (last == kinds::INTEGER))
}

// The kind before the last token's; of a single token, its own.
fn kind_before_last(kinds: &[u8]) -> u8
    requires { 0 < length kinds.now }
    ensures { result ≡ get_or kinds.now (length kinds.now - 2) NoToken }
{
    if kinds.len() < 2 {
        return kinds[0];
    }
    kinds[kinds.len() - 2]
}

// An open bracket, an open angle, no identifier or a bad boundary, in this order; or the row passes.
pub fn check_row_end(
    language: u8,
    kinds: &[u8],
    stack: &[u32],
    s: ScanState,
) -> Result<(), TypeNameError>
    requires { Sound kinds.now stack.now s (length kinds.now) × (0 < length kinds.now) }
    ensures { PrescanSays result (row_end language kinds.now (openers kinds.now stack.now s.depth) (scan_of (openers kinds.now stack.now s.depth) s)) }
{
    let depth = s.depth;
    if 0 < depth {
        let token = stack[depth - 1];
        let open = delimiter(kinds[token as usize]);
        return Err(TypeNameError::UnclosedDelimiter {
            delimiter: open,
            token,
        });
    }
    if 0 < s.angles {
        return Err(TypeNameError::UnclosedAngle { token: s.first });
    }
    if !s.word {
        return Err(TypeNameError::MissingTypeWord);
    }
    let before = kind_before_last(kinds);
    if is_valid_start(kinds[0]) & is_valid_end(language, before, kinds[kinds.len() - 1]) {
        return Ok(());
    }
    Err(TypeNameError::InvalidBoundaryToken)
}
