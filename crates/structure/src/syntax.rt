// The structure check of a tree.

ghost use Rattle.std.specs.Prelude.{◌≡◌};
ghost use Rattle.structure.specs.Syntax.{validate_structured_syntax};
ghost use Rattle.structure.specs.VerdictSays.{VerdictSays};

use crate::level::Level;
use crate::moves::Verdict;
use rows::languages::FORTRAN;

impl Level<'_> {
    // `allowed`: the steps that are left to it.
    pub fn validate_structured_syntax(&self, allowed: usize) -> Verdict
        ensures { let row = self.now.row.now in VerdictSays row.tree.now row.kinds.now self.now.from self.now.to allowed (validate_structured_syntax row.language row.kinds.now row.words.now) result }
    {
        if self.row.language == FORTRAN {
            return self.validate_fortran_type(allowed);
        }
        self.validate_c_family_type(allowed)
    }
}
