// The checks that call one another: the loops over the nodes of a level, and what is asked of the nodes below a node. Each loop counts one step.
// They stand in one file: a cycle is proved together, this one under the name `validation`. Those that the original has no name for have short ones.

ghost use Rattle.type_nodes.specs.Moves.{type_or_expression, arguments};
ghost use Rattle.structure.specs.Said.{a_type, a_declarator, an_expression};
ghost use Rattle.structure.specs.Checks.{checked, validate_cpp_template_argument, validate_parameter, validate_parameter_type_list};
ghost use Rattle.structure.specs.RepresentedMoves.{test_of};
ghost use Rattle.structure.specs.VerdictSays.{VerdictSays, Answers, Passes};

use crate::declarators::{
    abstract_declarator_node, c_family_node, takes_list, takes_scope, takes_word,
};
use crate::expressions::{expression_end, expression_node};
use crate::level::{Level, ReadRow};
use crate::moves::{DeclaratorLoop, ExpressionLoop, Fault, Inner, Move, TypeLoop, Verdict, plain};
use rows::kinds::{IDENTIFIER, STAR};
use rows::word_numbers::NO_WORD;
use type_nodes::abstract_declarators::looks_like_abstract_declarator;
use type_nodes::nodes::{exact_word, is_ellipsis, is_single_token, node_end, shape_at};
use type_nodes::shapes::NO_NODE;
use type_nodes::specifiers::validate_c_decl_specifiers;
use type_nodes::split_on_commas::{element_end, elements_are_full};

impl Level<'_> {
    #[cycle(validation)]
    pub fn validate_c_family_type(&self, allowed: usize) -> Verdict
        ensures { let row = self.now.row.now in VerdictSays row.tree.now row.kinds.now self.now.from self.now.to allowed (checked row.language row.kinds.now row.words.now a_type) result }
    {
        let Level { row, from, to } = *self;
        let ReadRow {
            language,
            tree,
            kinds,
            words,
        } = *row;
        if allowed == 0 {
            return Err(Fault::Spent);
        }
        if self.is_type_word() {
            return Ok(allowed - 1);
        }
        let mut left = allowed - 1;
        if !validate_c_decl_specifiers(language, tree, kinds, words, from, to) {
            return Err(Fault::Fails(left));
        }
        let mut before = NO_NODE;
        let mut word_before = NO_WORD;
        let mut st = TypeLoop {
            saw_type_word: false,
            declarator_started: false,
            saw_reference: false,
        };
        let mut at = from;
        while at < to {
            let shape = shape_at(tree, kinds, at, to);
            let word = exact_word(tree, kinds, words, at, to);
            let end = node_end(tree, kinds, at, to);
            // The three nodes that most types are made of are taken without a move.
            if shape == IDENTIFIER {
                if !takes_word(word, st.declarator_started) {
                    return Err(Fault::Fails(left));
                }
                st.saw_type_word = true;
                before = shape;
                word_before = word;
                at = end;
                continue;
            }
            let right = shape_at(tree, kinds, end, to);
            if takes_scope(language, before, shape, right) {
                before = shape;
                word_before = word;
                at = end;
                continue;
            }
            if takes_list(language, before, shape) {
                left = self.within(at + 1, end).arguments(left)?;
                st.saw_type_word = true;
                before = shape;
                word_before = word;
                at = end;
                continue;
            }
            let act = c_family_node(language, before, word_before, shape, word, right, st);
            match act {
                Move::Stop(holds) => return plain(holds, left),
                Move::On(next) => {
                    st = next;
                }
                Move::Inside(inner, next) => {
                    left = self.within(at + 1, end).test(inner, left)?;
                    st = next;
                }
            }
            before = shape;
            word_before = word;
            at = end;
        }
        plain(st.saw_type_word, left)
    }

    #[cycle(validation)]
    fn validate_abstract_declarator(&self, allowed: usize) -> Verdict
        ensures { let row = self.now.row.now in VerdictSays row.tree.now row.kinds.now self.now.from self.now.to allowed (checked row.language row.kinds.now row.words.now a_declarator) result }
    {
        let Level { row, from, to } = *self;
        let ReadRow {
            language,
            tree,
            kinds,
            words,
        } = *row;
        if allowed == 0 {
            return Err(Fault::Spent);
        }
        let mut left = allowed - 1;
        let mut before = NO_NODE;
        let mut st = DeclaratorLoop {
            saw_operator: false,
            saw_reference: false,
        };
        let mut at = from;
        while at < to {
            let shape = shape_at(tree, kinds, at, to);
            let word = exact_word(tree, kinds, words, at, to);
            let end = node_end(tree, kinds, at, to);
            let right = shape_at(tree, kinds, end, to);
            let act = abstract_declarator_node(language, before, shape, word, right, st);
            match act {
                Move::Stop(holds) => return plain(holds, left),
                Move::On(next) => {
                    st = next;
                }
                Move::Inside(Inner::Declarator, next) => {
                    left = self.within(at + 1, end).validate_abstract_declarator(left)?;
                    st = next;
                }
                Move::Inside(inner, next) => {
                    left = self.within(at + 1, end).test(inner, left)?;
                    st = next;
                }
            }
            before = shape;
            at = end;
        }
        plain(st.saw_operator, left)
    }

    #[cycle(validation)]
    pub fn validate_expression(&self, allowed: usize) -> Verdict
        ensures { let row = self.now.row.now in VerdictSays row.tree.now row.kinds.now self.now.from self.now.to allowed (checked row.language row.kinds.now row.words.now an_expression) result }
    {
        let Level { row, from, to } = *self;
        let ReadRow {
            language,
            tree,
            kinds,
            ..
        } = *row;
        if allowed == 0 {
            return Err(Fault::Spent);
        }
        let mut left = allowed - 1;
        let mut st = ExpressionLoop {
            expects_operand: true,
            expects_name_after_access: false,
            conditional_depth: 0,
        };
        let mut at = from;
        while at < to {
            let shape = shape_at(tree, kinds, at, to);
            let end = node_end(tree, kinds, at, to);
            let act = expression_node(language, shape, st);
            match act {
                Move::Stop(holds) => return plain(holds, left),
                Move::On(next) => {
                    st = next;
                }
                Move::Inside(inner, next) => {
                    left = self.within(at + 1, end).test(inner, left)?;
                    st = next;
                }
            }
            at = end;
        }
        plain(expression_end(st), left)
    }

    // What is asked of the nodes below a node.
    #[cycle(validation)]
    fn test(&self, inner: Inner, allowed: usize) -> Verdict
        ensures { let row = self.now.row.now in Passes row.language row.tree.now row.kinds.now row.words.now self.now.from self.now.to allowed (test_of inner) result }
    {
        let Level { row, from, to } = *self;
        let ReadRow { tree, kinds, .. } = *row;
        match inner {
            Inner::TypeName => return self.validate_c_family_type(allowed),
            Inner::Expression => return self.validate_expression(allowed),
            Inner::SomeExpression => {
                if from == to {
                    return Err(Fault::Fails(allowed));
                }
                return self.validate_expression(allowed);
            }
            Inner::OptionalExpression => {
                if from == to {
                    return Ok(allowed);
                }
                return self.validate_expression(allowed);
            }
            Inner::TypeOrExpression => return self.either(allowed),
            Inner::ArrayBound => {
                if from == to {
                    return Ok(allowed);
                }
                if is_single_token(tree, kinds, STAR, from, to) {
                    return Ok(allowed);
                }
                return self.validate_expression(allowed);
            }
            Inner::Declarator => return self.validate_abstract_declarator(allowed),
            Inner::Arguments => return self.arguments(allowed),
            Inner::DeclaratorOrParameters(saw_type_word) => {
                if looks_like_abstract_declarator(tree, kinds, from, to) {
                    return self.validate_abstract_declarator(allowed);
                }
                if !saw_type_word {
                    return Err(Fault::Fails(allowed));
                }
                return self.validate_parameter_type_list(allowed);
            }
        }
    }

    // A type, or else an expression; the steps of the first try stay counted.
    #[cycle(validation)]
    fn either(&self, allowed: usize) -> Verdict
        ensures { let row = self.now.row.now in Passes row.language row.tree.now row.kinds.now row.words.now self.now.from self.now.to allowed type_or_expression result }
    {
        match self.validate_c_family_type(allowed) {
            Ok(left) => Ok(left),
            Err(Fault::Fails(steps)) => self.validate_expression(steps),
            Err(Fault::Spent) => Err(Fault::Spent),
        }
    }

    #[cycle(validation)]
    fn validate_cpp_template_argument(&self, allowed: usize) -> Verdict
        ensures { let row = self.now.row.now in Answers validate_cpp_template_argument row.language row.tree.now row.kinds.now row.words.now self.now.from self.now.to allowed result }
    {
        if self.from == self.to {
            return Err(Fault::Fails(allowed));
        }
        self.either(allowed)
    }

    // The arguments below an L.
    #[cycle(validation)]
    fn arguments(&self, allowed: usize) -> Verdict
        ensures { let row = self.now.row.now in Passes row.language row.tree.now row.kinds.now row.words.now self.now.from self.now.to allowed arguments result }
    {
        let Level { row, from, to } = *self;
        let ReadRow { tree, kinds, .. } = *row;
        let mut left = allowed;
        let mut at = from;
        while at < to {
            let end = node_end(tree, kinds, at, to);
            left = self
                .within(at + 1, end)
                .validate_cpp_template_argument(left)?;
            at = end;
        }
        Ok(left)
    }

    #[cycle(validation)]
    fn parameter(&self, allowed: usize) -> Verdict
        ensures { let row = self.now.row.now in Answers validate_parameter row.language row.tree.now row.kinds.now row.words.now self.now.from self.now.to allowed result }
    {
        if is_ellipsis(self.row.tree, self.row.kinds, self.from, self.to) {
            return Ok(allowed);
        }
        self.validate_c_family_type(allowed)
    }

    #[cycle(validation)]
    fn validate_parameter_type_list(&self, allowed: usize) -> Verdict
        ensures { let row = self.now.row.now in Answers validate_parameter_type_list row.language row.tree.now row.kinds.now row.words.now self.now.from self.now.to allowed result }
    {
        let Level { row, from, to } = *self;
        let ReadRow { tree, kinds, .. } = *row;
        if from == to {
            return Ok(allowed);
        }
        if !elements_are_full(tree, kinds, from, to) {
            return Err(Fault::Fails(allowed));
        }
        let mut left = allowed;
        let mut at = from;
        loop {
            let end = element_end(tree, kinds, at, to);
            left = self.within(at, end).parameter(left)?;
            if end == to {
                return Ok(left);
            }
            at = node_end(tree, kinds, end, to);
        }
    }
}
