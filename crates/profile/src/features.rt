// What a row uses, by its token kinds and word numbers: the tests of `validate_profile_features`.

ghost use Rattle.std.specs.Prelude.{◌≡◌, ◌&&◌, ◌≤◌, get_or, length, leb};
ghost use Rattle.rows.specs.Words.{no_word};
ghost use Rattle.profile.specs.Tested.{CanTest, SomeTested};
ghost use Rattle.profile.specs.Profile.{compared, kind_is, identifier_is, ignores_case, has_kind, has_adjacent_identifiers, has_identifier_call, has_identifier_followed_by_star, has_assumed_rank, some_below, uses};

use rows::answer::Feature;
use rows::word_numbers::{
    ATOMIC, BIT_INT, CLASS, DECLTYPE, LONG, TYPE, TYPEOF, TYPEOF_UNQUAL, exactly, ignoring_case,
};
use rows::{kinds, word_numbers};

// A row whose words are compared with case ignored, or as they are.
#[derive(Clone, Copy)]
pub struct ComparedRow<'a> {
    pub ignoring: bool,
    pub kinds: &'a [u8],
    pub words: &'a [u8],
}

// Whether `identifier_is` ignores case: in every language.
pub fn ignores_case(language: u8) -> bool
    ensures { result ≡ ignores_case language }
{
    true
}

fn compared(ignoring: bool, number: u8) -> u8
    ensures { result ≡ compared ignoring number }
{
    if ignoring {
        return ignoring_case(number);
    }
    exactly(number)
}

impl ComparedRow<'_> {
    fn kind_is(&self, at: usize, kind: u8) -> bool
        ensures { result ≡ kind_is self.now.kinds.now at kind }
    {
        if at < self.kinds.len() {
            return self.kinds[at] == kind;
        }
        kinds::NO_TOKEN_KIND == kind
    }

    fn word_at(&self, at: usize) -> u8
        ensures { result ≡ get_or self.now.words.now at no_word }
    {
        if at < self.words.len() {
            return self.words[at];
        }
        word_numbers::NO_WORD
    }

    fn identifier_is(&self, at: usize, word: u8) -> bool
        ensures { result ≡ identifier_is self.now.ignoring self.now.kinds.now self.now.words.now at word }
    {
        if compared(self.ignoring, self.word_at(at)) != word {
            return false;
        }
        self.kind_is(at, kinds::IDENTIFIER)
    }

    // Some place of the row passes a test: the original's `windows(..).any`.
    fn some_token<F: Fn(usize) -> bool>(&self, passes: F) -> bool
        requires { CanTest F.pre passes (length self.now.kinds.now) }
        ensures { SomeTested F.post passes self.now.kinds.now result }
    {
        for at in 0..self.kinds.len() {
            if passes(at) {
                return true;
            }
        }
        false
    }

    pub fn has_kind(&self, kind: u8) -> bool
        ensures { result ≡ has_kind self.now.kinds.now kind }
    {
        self.some_token(|at| self.kind_is(at, kind))
    }

    pub fn has_adjacent_identifiers(&self, first: u8, second: u8) -> bool
        ensures { result ≡ has_adjacent_identifiers self.now.ignoring self.now.kinds.now self.now.words.now first second }
    {
        self.some_token(|at| self.identifier_is(at, first) && self.identifier_is(at + 1, second))
    }

    pub fn has_identifier_call(&self, name: u8) -> bool
        ensures { result ≡ has_identifier_call self.now.ignoring self.now.kinds.now self.now.words.now name }
    {
        self.some_token(|at| self.identifier_is(at, name)
            && self.kind_is(at + 1, kinds::LEFT_PAREN))
    }

    pub fn has_identifier_followed_by_star(&self, name: u8) -> bool
        ensures { result ≡ has_identifier_followed_by_star self.now.ignoring self.now.kinds.now self.now.words.now name }
    {
        self.some_token(|at| {
            self.identifier_is(at, name)
                && self.kind_is(at + 1, kinds::LEFT_PAREN)
                && self.kind_is(at + 2, kinds::STAR)
        })
    }

    pub fn has_assumed_rank(&self) -> bool
        ensures { result ≡ has_assumed_rank self.now.kinds.now }
    {
        self.some_token(|at| {
            self.kind_is(at, kinds::LEFT_PAREN)
                && self.kind_is(at + 1, kinds::DOT)
                && self.kind_is(at + 2, kinds::DOT)
                && self.kind_is(at + 3, kinds::RIGHT_PAREN)
        })
    }

    // A word of the row has one of these numbers. All are looked at, even behind one that has: so the compiler looks at many at once.
    pub fn has_word_between(&self, least: u8, most: u8) -> bool
        ensures { result ≡ some_below (length self.now.words.now) (λ at. leb least (compared self.now.ignoring (get_or self.now.words.now at no_word)) && leb (compared self.now.ignoring (get_or self.now.words.now at no_word)) most) }
    {
        let ComparedRow {
            ignoring,
            words,
            ..
        } = *self;
        let mut found = false;
        for &number in words {
            let word = compared(ignoring, number);
            found = found | ((least <= word) & (word <= most));
        }
        found
    }

    pub fn uses(&self, feature: Feature) -> bool
        ensures { result ≡ uses self.now.ignoring self.now.kinds.now self.now.words.now feature }
    {
        match feature {
            Feature::LongLong => self.has_adjacent_identifiers(LONG, LONG),
            Feature::Atomic => self.has_identifier_call(ATOMIC),
            Feature::BitInt => self.has_identifier_call(BIT_INT),
            Feature::Typeof => self.has_identifier_call(TYPEOF),
            Feature::TypeofUnqual => self.has_identifier_call(TYPEOF_UNQUAL),
            Feature::Decltype => self.has_identifier_call(DECLTYPE),
            Feature::RvalueReference => self.has_kind(kinds::LOGICAL_AND),
            Feature::Selector => self.has_kind(kinds::EQUAL),
            Feature::DerivedType => self.has_identifier_call(TYPE),
            Feature::Class => self.has_identifier_call(CLASS),
            Feature::AssumedTypeOrRank => {
                self.has_identifier_followed_by_star(TYPE) | self.has_assumed_rank()
            }
        }
    }
}
