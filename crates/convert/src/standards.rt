// By which number a standard is written in the other format.

ghost use Rattle.std.specs.Prelude.{◌≡◌};
ghost use Rattle.convert.specs.Standards.{narrowed_standard, own_number, widened_standard};

use rows::format::current;
use rows::head::{STANDARD_254, STANDARD_255, meant_standard};

// In a file that is widened.
pub fn widened_standard(standard: u8) -> u8
    ensures { result ≡ widened_standard standard }
{
    if standard == STANDARD_255 {
        return STANDARD_254;
    }
    standard
}

// In a file that is narrowed.
pub fn narrowed_standard(language: u8, standard: u8) -> u8
    ensures { result ≡ narrowed_standard language standard }
{
    if standard == STANDARD_254 {
        return STANDARD_255;
    }
    if standard == STANDARD_255 {
        // A known standard has a number; an unknown one was refused before.
        return meant_standard(current(), language, standard).unwrap_or(STANDARD_255);
    }
    standard
}
