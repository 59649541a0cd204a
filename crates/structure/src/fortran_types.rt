// Fortran type names: the head, what the loop does at a node, and the check.

ghost use Rattle.std.specs.Prelude.{◌≡◌};
ghost use Rattle.type_nodes.specs.Stands.{Of};
ghost use Rattle.structure.specs.FortranTypes.{fortran_node, fortran_head, validate_fortran_type_head, validate_fortran_type};
ghost use Rattle.structure.specs.RepresentedMoves.{fortran_move_of, fortran_state_of};
ghost use Rattle.structure.specs.VerdictSays.{Answers};

use crate::level::{Level, ReadRow};
use crate::moves::{Fault, FortranInner, FortranLoop, FortranMove, Move, Verdict, plain};
use rows::kinds::{IDENTIFIER, INTEGER, STAR};
use rows::word_numbers::{DOUBLE, ignoring_case};
use type_nodes::nodes::{is_single_token, node_at, node_end, node_identifier, shape_at};
use type_nodes::sets::{is_derived_type_word, is_word_after_double};
use type_nodes::shapes::PARENTHESIZED;

// `last`: one node follows, an integer.
pub fn fortran_node(shape: u8, last: bool, st: FortranLoop) -> FortranMove
    ensures { fortran_move_of result ≡ fortran_node shape last (fortran_state_of st) }
{
    if shape == IDENTIFIER {
        return Move::On(FortranLoop {
            saw_word: true,
            ..st
        });
    }
    if (shape == PARENTHESIZED) & st.saw_word & !st.saw_selector {
        let selected = FortranLoop {
            saw_selector: true,
            ..st
        };
        return Move::Inside(FortranInner::Selectors, selected);
    }
    if (shape == STAR) & st.saw_word & last {
        return Move::Stop(true);
    }
    Move::Stop(false)
}

// `second`: the word after it.
fn head_holds(shape: u8, word: u8, right: u8, second: u8) -> bool
    ensures { result ≡ fortran_head shape word right second }
{
    if shape != IDENTIFIER {
        return false;
    }
    if is_derived_type_word(word) {
        return right == PARENTHESIZED;
    }
    if word == DOUBLE {
        return is_word_after_double(second);
    }
    !(right == IDENTIFIER)
}

impl Level<'_> {
    pub fn validate_fortran_type_head(&self) -> bool
        ensures { let row = self.now.row.now in Of row.tree.now row.kinds.now self.now.from self.now.to (λ x. result ≡ validate_fortran_type_head row.kinds.now row.words.now x) }
    {
        let Level { row, from, to } = *self;
        let ReadRow {
            tree,
            kinds,
            words,
            ..
        } = *row;
        let Some(node) = node_at(tree, kinds, from, to) else {
            return false;
        };
        let word = ignoring_case(node_identifier(tree, kinds, words, from, to));
        let right = shape_at(tree, kinds, node.next, to);
        let second = ignoring_case(node_identifier(tree, kinds, words, node.next, to));
        head_holds(node.shape, word, right, second)
    }

    pub fn validate_fortran_type(&self, allowed: usize) -> Verdict
        ensures { let row = self.now.row.now in Answers validate_fortran_type row.language row.tree.now row.kinds.now row.words.now self.now.from self.now.to allowed result }
    {
        let Level { row, from, to } = *self;
        let ReadRow { tree, kinds, .. } = *row;
        if allowed == 0 {
            return Err(Fault::Spent);
        }
        let mut left = allowed - 1;
        if !self.validate_fortran_type_head() {
            return Err(Fault::Fails(left));
        }
        let mut st = FortranLoop {
            saw_word: false,
            saw_selector: false,
        };
        let mut at = from;
        while at < to {
            let shape = shape_at(tree, kinds, at, to);
            let end = node_end(tree, kinds, at, to);
            let last = is_single_token(tree, kinds, INTEGER, end, to);
            let act = fortran_node(shape, last, st);
            match act {
                Move::Stop(holds) => return plain(holds, left),
                Move::On(next) => {
                    st = next;
                }
                Move::Inside(FortranInner::Selectors, next) => {
                    left = self
                        .within(at + 1, end)
                        .validate_fortran_selector_list(left)?;
                    st = next;
                }
            }
            at = end;
        }
        plain(st.saw_word, left)
    }
}
