// The selectors in the parentheses of a Fortran type.

ghost use Rattle.std.specs.Prelude.{◌≡◌};
ghost use Rattle.structure.specs.Selectors.{validate_fortran_selector_value, validate_fortran_selector, validate_fortran_selector_list};
ghost use Rattle.structure.specs.VerdictSays.{Answers};

use crate::level::{Level, ReadRow};
use crate::moves::{Fault, Verdict};
use rows::kinds::{COLON, EQUAL, IDENTIFIER, STAR};
use type_nodes::nodes::{is_single_token, node_end, shape_at};
use type_nodes::split_on_commas::{element_end, elements_are_full};

impl Level<'_> {
    fn validate_fortran_selector_value(&self, allowed: usize) -> Verdict
        ensures { let row = self.now.row.now in Answers validate_fortran_selector_value row.language row.tree.now row.kinds.now row.words.now self.now.from self.now.to allowed result }
    {
        let star = is_single_token(self.row.tree, self.row.kinds, STAR, self.from, self.to);
        if star | is_single_token(self.row.tree, self.row.kinds, COLON, self.from, self.to) {
            return Ok(allowed);
        }
        self.validate_expression(allowed)
    }

    // One selector, with or without a keyword and `=`.
    fn validate_fortran_selector(&self, allowed: usize) -> Verdict
        ensures { let row = self.now.row.now in Answers validate_fortran_selector row.language row.tree.now row.kinds.now row.words.now self.now.from self.now.to allowed result }
    {
        let Level { row, from, to } = *self;
        let ReadRow { tree, kinds, .. } = *row;
        if shape_at(tree, kinds, from, to) != IDENTIFIER {
            return self.validate_fortran_selector_value(allowed);
        }
        let second = node_end(tree, kinds, from, to);
        if shape_at(tree, kinds, second, to) != EQUAL {
            return self.validate_fortran_selector_value(allowed);
        }
        let value = node_end(tree, kinds, second, to);
        if value == to {
            return Err(Fault::Fails(allowed));
        }
        self.within(value, to)
            .validate_fortran_selector_value(allowed)
    }

    pub fn validate_fortran_selector_list(&self, allowed: usize) -> Verdict
        ensures { let row = self.now.row.now in Answers validate_fortran_selector_list row.language row.tree.now row.kinds.now row.words.now self.now.from self.now.to allowed result }
    {
        let Level { row, from, to } = *self;
        let ReadRow { tree, kinds, .. } = *row;
        if from == to {
            return Err(Fault::Fails(allowed));
        }
        if !elements_are_full(tree, kinds, from, to) {
            return Err(Fault::Fails(allowed));
        }
        let mut left = allowed;
        let mut at = from;
        loop {
            let end = element_end(tree, kinds, at, to);
            left = self.within(at, end).validate_fortran_selector(left)?;
            if end == to {
                return Ok(left);
            }
            at = node_end(tree, kinds, end, to);
        }
    }
}
