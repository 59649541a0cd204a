// What a row uses and its standard lacks: `validate_profile_features`. Features are tested in the order of their details.

ghost use Rattle.std.specs.Prelude.{◌≡◌, ◌&&◌, ◌≤◌, drop, length, ltb};
ghost use Rattle.rows.specs.Languages.{C, Cpp, Fortran};
ghost use Rattle.profile.specs.Profile.{features, lacking, missing_feature, uses};

use crate::features::{ComparedRow, ignores_case};
use rows::answer::Feature;
use rows::languages::{C, C11, C23, C99, CPP, CPP11, FORTRAN, FORTRAN90, FORTRAN2003, FORTRAN2018};
use rows::word_numbers::{BIT_INT, TYPEOF};

impl ComparedRow<'_> {
    // The row uses a feature that came with a later standard, `since`.
    fn lacks(&self, standard: u8, since: u8, feature: Feature) -> bool
        ensures { result ≡ (uses self.now.ignoring self.now.kinds.now self.now.words.now feature && ltb standard since) }
    {
        standard < since && self.uses(feature)
    }

    fn missing_in_c(&self, standard: u8) -> Option<Feature>
        ensures { result ≡ lacking self.now.ignoring standard self.now.kinds.now self.now.words.now (features C) }
    {
        if self.lacks(standard, C99, Feature::LongLong) {
            return Some(Feature::LongLong);
        }
        if self.lacks(standard, C11, Feature::Atomic) {
            return Some(Feature::Atomic);
        }
        self.missing_of_c23(standard)
    }

    // The same of the features that came with C23, all but C's first two. Most rows have none of their words, whose numbers are side by side: one look tells.
    fn missing_of_c23(&self, standard: u8) -> Option<Feature>
        ensures { result ≡ lacking self.now.ignoring standard self.now.kinds.now self.now.words.now (drop 2 (features C)) }
    {
        if C23 <= standard {
            return None;
        }
        if !self.has_word_between(TYPEOF, BIT_INT) {
            return None;
        }
        if self.lacks(standard, C23, Feature::BitInt) {
            return Some(Feature::BitInt);
        }
        if self.lacks(standard, C23, Feature::Typeof) {
            return Some(Feature::Typeof);
        }
        if self.lacks(standard, C23, Feature::TypeofUnqual) {
            return Some(Feature::TypeofUnqual);
        }
        None
    }

    fn missing_in_cpp(&self, standard: u8) -> Option<Feature>
        ensures { result ≡ lacking self.now.ignoring standard self.now.kinds.now self.now.words.now (features Cpp) }
    {
        if self.lacks(standard, CPP11, Feature::LongLong) {
            return Some(Feature::LongLong);
        }
        if self.lacks(standard, CPP11, Feature::Decltype) {
            return Some(Feature::Decltype);
        }
        if self.lacks(standard, CPP11, Feature::RvalueReference) {
            return Some(Feature::RvalueReference);
        }
        None
    }

    fn missing_in_fortran(&self, standard: u8) -> Option<Feature>
        ensures { result ≡ lacking self.now.ignoring standard self.now.kinds.now self.now.words.now (features Fortran) }
    {
        if self.lacks(standard, FORTRAN90, Feature::Selector) {
            return Some(Feature::Selector);
        }
        if self.lacks(standard, FORTRAN90, Feature::DerivedType) {
            return Some(Feature::DerivedType);
        }
        if self.lacks(standard, FORTRAN2003, Feature::Class) {
            return Some(Feature::Class);
        }
        if self.lacks(standard, FORTRAN2018, Feature::AssumedTypeOrRank) {
            return Some(Feature::AssumedTypeOrRank);
        }
        None
    }
}

pub fn validate_profile_features(
    language: u8,
    standard: u8,
    kinds: &[u8],
    words: &[u8],
) -> Option<Feature>
    ensures { result ≡ missing_feature language standard kinds.now words.now }
{
    let row = ComparedRow {
        ignoring: ignores_case(language),
        kinds,
        words,
    };
    if language == C {
        return row.missing_in_c(standard);
    }
    if language == CPP {
        return row.missing_in_cpp(standard);
    }
    if language == FORTRAN {
        return row.missing_in_fortran(standard);
    }
    None
}
