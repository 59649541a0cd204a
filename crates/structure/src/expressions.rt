// What the loop of `validate_expression` does at a node.

ghost use Rattle.std.specs.Prelude.{◌≡◌, ◌+◌, ◌<◌, if◌then◌else◌};
ghost use Rattle.type_nodes.specs.Moves.{some_expression, optional_expression};
ghost use Rattle.structure.specs.Expressions.{expression_node, expression_end};
ghost use Rattle.structure.specs.RepresentedMoves.{test_of, expression_state_of, Moves};
ghost use Rattle.reader.specs.Nodes.{numbers_bound};

use crate::moves::{ExpressionLoop, ExpressionMove, Inner, Move, inside_if, on_if};
use rows::kinds::{COLON, IDENTIFIER, QUESTION, SCOPE};
use rows::languages::{CPP, FORTRAN};
use type_nodes::sets::{
    is_access_of, is_binary_or_assignment_operator, is_literal, is_member_access,
    is_postfix_operator, is_prefix_operator, is_prefix_or_binary_operator,
};
use type_nodes::shapes::{BRACKETED, PARENTHESIZED, TEMPLATE_ARGUMENTS};

pub fn expression_end(st: ExpressionLoop) -> bool
    ensures { result ≡ expression_end (expression_state_of st) }
{
    !st.expects_operand & !st.expects_name_after_access & (st.conditional_depth == 0)
}

fn group_test(operand: bool) -> Inner
    ensures { test_of result ≡ (if operand then some_expression else optional_expression) }
{
    if operand {
        return Inner::SomeExpression;
    }
    Inner::OptionalExpression
}

pub fn expression_node(language: u8, shape: u8, st: ExpressionLoop) -> ExpressionMove
    requires { st.conditional_depth < numbers_bound }
    ensures { Moves (st.conditional_depth + 1) result (expression_node language shape (expression_state_of st)) }
{
    let operand = st.expects_operand;
    let access = st.expects_name_after_access;
    let depth = st.conditional_depth;
    let met = ExpressionLoop {
        expects_operand: false,
        ..st
    };
    let due = ExpressionLoop {
        expects_operand: true,
        ..st
    };
    let name_due = ExpressionLoop {
        expects_name_after_access: true,
        ..due
    };
    if shape == IDENTIFIER {
        let named = ExpressionLoop {
            expects_name_after_access: false,
            ..met
        };
        return on_if(operand, named);
    }
    if is_literal(shape) {
        return on_if(operand & !access, met);
    }
    if shape == SCOPE {
        return on_if((language == CPP) & !access, name_due);
    }
    if is_member_access(shape) {
        return on_if(!operand & is_access_of(language, shape), name_due);
    }
    if is_prefix_operator(shape) & operand & !access {
        return Move::On(st);
    }
    if is_prefix_or_binary_operator(shape) & operand & !access {
        return Move::On(st);
    }
    if is_postfix_operator(shape) & !operand {
        return Move::On(st);
    }
    if shape == QUESTION {
        let deeper = ExpressionLoop {
            conditional_depth: depth + 1,
            ..due
        };
        return on_if(!(language == FORTRAN) & !operand, deeper);
    }
    if shape == COLON {
        let closed = ExpressionLoop {
            conditional_depth: depth.saturating_sub(1),
            ..due
        };
        return on_if(!(language == FORTRAN) & !operand & !(depth == 0), closed);
    }
    if is_binary_or_assignment_operator(language, shape) {
        let operated = ExpressionLoop {
            expects_name_after_access: false,
            ..due
        };
        return on_if(!operand, operated);
    }
    if shape == PARENTHESIZED {
        return inside_if(!access, group_test(operand), met);
    }
    if shape == BRACKETED {
        return inside_if(!operand, Inner::SomeExpression, met);
    }
    if shape == TEMPLATE_ARGUMENTS {
        return inside_if((language == CPP) & !operand, Inner::Arguments, st);
    }
    Move::Stop(false)
}
