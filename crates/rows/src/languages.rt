// Languages and standards by number: document 01, "Head record". Numbers, and no enum: `prescan_row`, `validate_structured_syntax` and
// `validate_profile_features` promise an answer for every byte as a language or a standard.

pub const C: u8 = 0;

pub const CPP: u8 = 1;

pub const FORTRAN: u8 = 2;

pub const C89: u8 = 0;

pub const C99: u8 = 1;

pub const C11: u8 = 2;

pub const C18: u8 = 3;

pub const C23: u8 = 4;

pub const CPP98: u8 = 0;

pub const CPP11: u8 = 1;

pub const CPP14: u8 = 2;

pub const CPP17: u8 = 3;

pub const CPP20: u8 = 4;

pub const CPP23: u8 = 5;

pub const FORTRAN77: u8 = 0;

pub const FORTRAN90: u8 = 1;

pub const FORTRAN95: u8 = 2;

pub const FORTRAN2003: u8 = 3;

pub const FORTRAN2008: u8 = 4;

pub const FORTRAN2018: u8 = 5;

pub const FORTRAN2023: u8 = 6;
