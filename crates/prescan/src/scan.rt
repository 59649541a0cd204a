// The tokens of a row in order: brackets, angles and commas.

ghost use Rattle.std.specs.Prelude.{◌≡◌, not, ◌+◌, ◌<◌, ◌≤◌, ◌^◌, get_or, length, set, [], ◌∷◌};
ghost use Rattle.rows.specs.Kinds.{Comma, End, Greater, LeftBracket, LeftParen, Less, NoToken, RightBracket, RightParen, ShiftRight};
ghost use Rattle.rows.specs.Notation.{◌is_one_of◌};
ghost use Rattle.prescan.specs.Prescan.{close, opens_angle, outside_brackets, passed, take_token};
ghost use Rattle.prescan.specs.ScanState.{Counted, Past, Sound, Steps, Takes, delimiter_of, openers, scan_of};

use rows::answer::{Delimiter, NO_TOKEN, TypeNameError};
use rows::{kinds, languages};

// A token of this kind opens, closes and parts nothing, wherever it stands.
pub fn is_ordinary(kind: u8) -> bool
    ensures { result ≡ not (kind is_one_of (LeftParen ∷ LeftBracket ∷ RightParen ∷ RightBracket ∷ Less ∷ Greater ∷ ShiftRight ∷ Comma ∷ End ∷ NoToken ∷ [])) }
{
    if kind == kinds::LEFT_PAREN {
        return false;
    }
    if kind == kinds::LEFT_BRACKET {
        return false;
    }
    if kind == kinds::RIGHT_PAREN {
        return false;
    }
    if kind == kinds::RIGHT_BRACKET {
        return false;
    }
    if kind == kinds::LESS {
        return false;
    }
    if kind == kinds::GREATER {
        return false;
    }
    if kind == kinds::SHIFT_RIGHT {
        return false;
    }
    if kind == kinds::COMMA {
        return false;
    }
    if kind == kinds::END {
        return false;
    }
    kind != kinds::NO_TOKEN_KIND
}

// What is known after some tokens. `depth` brackets are open: their token numbers stand in a lent stack. `first`: the angle that was seen first, `NO_TOKEN`
// before: no Option, since it is read only where an angle is open.
#[derive(Clone, Copy)]
pub struct ScanState {
    pub depth: usize,
    pub angles: usize,
    pub first: u32,
    pub word: bool,
    pub last: u8,
}

// Of an opener's kind. No `From`: neither type is this crate's.
pub fn delimiter(kind: u8) -> Delimiter
    ensures { result ≡ delimiter_of kind }
{
    if kind == kinds::LEFT_PAREN {
        return Delimiter::Parenthesis;
    }
    Delimiter::Bracket
}

fn opens_angle(language: u8, last: u8) -> bool
    ensures { result ≡ opens_angle language last }
{
    (language == languages::CPP)
        & ((last == kinds::IDENTIFIER)
            | (last == kinds::GREATER)
            | (last == kinds::SHIFT_RIGHT)
            | (last == kinds::RIGHT_PAREN)
            | (last == kinds::RIGHT_BRACKET))
}

// Past a token of this kind, with these brackets and angles.
fn past(s: ScanState, kind: u8, depth: usize, angles: usize, first: u32) -> ScanState
    ensures { Past s kind depth angles first result }
{
    ScanState {
        depth,
        angles,
        first,
        word: s.word | (kind == kinds::IDENTIFIER),
        last: kind,
    }
}

// An angle or a comma, or another token, outside brackets.
fn outside(language: u8, kind: u8, at: usize, s: ScanState) -> Result<ScanState, TypeNameError>
    requires { Counted s at }
    ensures { Steps [] s result (outside_brackets language kind at (scan_of [] s)) }
{
    let token = at as u32;
    if kind == kinds::LESS {
        if opens_angle(language, s.last) {
            if s.first == NO_TOKEN {
                return Ok(past(s, kind, s.depth, s.angles + 1, token));
            }
            return Ok(past(s, kind, s.depth, s.angles + 1, s.first));
        }
        return Err(TypeNameError::UnexpectedAngle { token });
    }
    if kind == kinds::GREATER {
        if s.angles == 0 {
            return Err(TypeNameError::UnexpectedAngle { token });
        }
        return Ok(past(s, kind, s.depth, s.angles - 1, s.first));
    }
    if kind == kinds::SHIFT_RIGHT {
        if s.angles == 1 {
            return Err(TypeNameError::UnexpectedAngle { token });
        }
        if 2 <= s.angles {
            return Ok(past(s, kind, s.depth, s.angles - 2, s.first));
        }
        return Ok(past(s, kind, s.depth, s.angles, s.first));
    }
    if kind == kinds::COMMA {
        if s.angles == 0 {
            return Err(TypeNameError::TopLevelComma { token });
        }
        return Ok(past(s, kind, s.depth, s.angles, s.first));
    }
    Ok(past(s, kind, s.depth, s.angles, s.first))
}

// An opener goes on the stack.
fn push(stack: &mut [u32], s: ScanState, kind: u8, at: usize) -> ScanState
    requires { (s.depth < length stack.old) × (at < 2 ^ 32) }
    ensures { (stack.new ≡ set stack.old s.depth at) × Past s kind (s.depth + 1) s.angles s.first result }
{
    let depth = s.depth;
    stack[depth] = at as u32;
    past(s, kind, depth + 1, s.angles, s.first)
}

// A closer takes the innermost opener off the stack, if it is its own.
fn close_delimiter(
    kinds: &[u8],
    stack: &[u32],
    s: ScanState,
    kind: u8,
    at: usize,
    actual: Delimiter,
) -> Result<ScanState, TypeNameError>
    requires { Sound kinds.now stack.now s at × (at < length kinds.now) }
    ensures { Takes kinds.now stack.now at result (close actual kind at (openers kinds.now stack.now s.depth) (scan_of (openers kinds.now stack.now s.depth) s)) }
{
    let depth = s.depth;
    let token = at as u32;
    if depth == 0 {
        return Err(TypeNameError::UnexpectedClosingDelimiter {
            expected: None,
            actual,
            token,
        });
    }
    let top = stack[depth - 1] as usize;
    let opened = delimiter(kinds[top]);
    if opened == actual {
        return Ok(past(s, kind, depth - 1, s.angles, s.first));
    }
    Err(TypeNameError::UnexpectedClosingDelimiter {
        expected: Some(opened),
        actual,
        token,
    })
}

// The state past token number `at`, or the first fault.
pub fn take(
    language: u8,
    kinds: &[u8],
    stack: &mut [u32],
    s: ScanState,
    at: usize,
) -> Result<ScanState, TypeNameError>
    requires { Sound kinds.now stack.old s at × (at < length kinds.now) }
    ensures { Takes kinds.now stack.new at result (take_token language (get_or kinds.now at 0) at (passed (scan_of (openers kinds.now stack.old s.depth) s))) }
{
    let kind = kinds[at];
    if kind == kinds::LEFT_PAREN {
        return Ok(push(stack, s, kind, at));
    }
    if kind == kinds::LEFT_BRACKET {
        return Ok(push(stack, s, kind, at));
    }
    if kind == kinds::RIGHT_PAREN {
        return close_delimiter(kinds, stack, s, kind, at, Delimiter::Parenthesis);
    }
    if kind == kinds::RIGHT_BRACKET {
        return close_delimiter(kinds, stack, s, kind, at, Delimiter::Bracket);
    }
    if kind == kinds::END {
        return Err(TypeNameError::UnexpectedEndToken { token: at as u32 });
    }
    if 0 < s.depth {
        return Ok(past(s, kind, s.depth, s.angles, s.first));
    }
    outside(language, kind, at, s)
}
