// The head record: document 01, "Head record".

ghost use Rattle.std.specs.Prelude.{◌≡◌};
ghost use Rattle.rows.specs.Format.{asks_structure, declared, meant, stands_for};
ghost use Rattle.rows.specs.Records.{head};

use crate::answer::TypeNameError;
use crate::bytes::{four_bytes, two_bytes};
use crate::format::{Format, StandIn};
use crate::languages;

pub const HEAD_LENGTH: usize = 11;

const AT_LENGTH: usize = 0;

// In a token record too.
pub const AT_KIND: usize = 2;

pub const AT_LANGUAGE: usize = 4;

pub const AT_STANDARD: usize = 5;

pub const AT_FLAG: usize = 6;

pub const AT_ALLOWANCE: usize = 7;

// Numbers outside the order in which standards are declared, which a format may know: bytes of the head record that a caller hands over, and no enum.
pub const STANDARD_254: u8 = 254;

pub const STANDARD_255: u8 = 255;

// The flag by which the structure is not checked.
const WITHOUT_STRUCTURE: u8 = 0;

// `standard` is the one that is meant: 254 and 255 stand for other numbers.
#[derive(Clone, Copy)]
pub struct Head {
    pub language: u8,
    pub standard: u8,
    pub flag: u8,
    pub allowance: u32,
}

// How many standards the language declares.
fn declared_standards(language: u8) -> u8
    ensures { result ≡ declared language }
{
    if language == languages::C {
        return languages::C23 + 1;
    }
    if language == languages::CPP {
        return languages::CPP23 + 1;
    }
    if language == languages::FORTRAN {
        return languages::FORTRAN2023 + 1;
    }
    0
}

fn stands_for(language: u8, number: Option<StandIn>) -> Option<u8>
    ensures { result ≡ stands_for language number }
{
    let StandIn { c, cpp, fortran } = number?;
    if language == languages::C {
        return Some(c);
    }
    if language == languages::CPP {
        return Some(cpp);
    }
    if language == languages::FORTRAN {
        return Some(fortran);
    }
    None
}

// What a standard's number means in a language.
pub fn meant_standard(format: Format, language: u8, standard: u8) -> Option<u8>
    ensures { result ≡ meant format language standard }
{
    if standard < declared_standards(language) {
        return Some(standard);
    }
    if standard == STANDARD_255 {
        return stands_for(language, format.means_255);
    }
    if standard == STANDARD_254 {
        return stands_for(language, format.means_254);
    }
    None
}

// Whether the flag asks for the structure check.
pub fn asks_structure(flag: u8) -> bool
    ensures { result ≡ asks_structure flag }
{
    !(flag == WITHOUT_STRUCTURE)
}

// The head of a file, or refusal 1, 2 or 3.
pub fn read_head(format: Format, file: &[u8]) -> Result<Head, TypeNameError>
    ensures { result ≡ head format file.now }
{
    if (format.file_limit as usize) < file.len() {
        return Err(TypeNameError::FileTooLong);
    }
    if file.len() < HEAD_LENGTH {
        return Err(TypeNameError::InvalidHead);
    }
    if two_bytes(file, AT_LENGTH) != HEAD_LENGTH {
        return Err(TypeNameError::InvalidHead);
    }
    if two_bytes(file, AT_KIND) != format.head_kind {
        return Err(TypeNameError::InvalidHead);
    }
    let flag = file[AT_FLAG];
    if format.greatest_flag < flag {
        return Err(TypeNameError::InvalidHead);
    }
    let language = file[AT_LANGUAGE];
    let found = meant_standard(format, language, file[AT_STANDARD]);
    let Some(standard) = found else {
        return Err(TypeNameError::UnknownProfile);
    };
    let allowance = four_bytes(file, AT_ALLOWANCE) as u32;
    Ok(Head {
        language,
        standard,
        flag,
        allowance,
    })
}
