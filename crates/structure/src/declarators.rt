// What the loops do at a node: one arm of the original's `match` after another. `left`, `right`: shape of the node before and after the node; `before`:
// word of the node before it.

ghost use Rattle.std.specs.Prelude.{◌≡◌, false, not, ◌&&◌, ◌||◌, eqb};
ghost use Rattle.rows.specs.Languages.{Cpp};
ghost use Rattle.rows.specs.Kinds.{Identifier, Scope};
ghost use Rattle.rows.specs.Words.{no_word};
ghost use Rattle.type_nodes.specs.Shapes.{TemplateArguments};
ghost use Rattle.type_nodes.specs.Nodes.{exact_word, is_single_token};
ghost use Rattle.type_nodes.specs.Sets.{is_c_builtin_type_word, is_c_family_declarator_qualifier};
ghost use Rattle.type_nodes.specs.Stands.{Of};
ghost use Rattle.structure.specs.Declarators.{scope_has_valid_neighbors, is_part_of_name, abstract_declarator_node, c_family_group, c_family_node};
ghost use Rattle.structure.specs.RepresentedMoves.{declarator_move_of, declarator_state_of, type_move_of, type_state_of};

use crate::level::{Level, ReadRow};
use crate::moves::{
    DeclaratorLoop, DeclaratorMove, Inner, Move, TypeLoop, TypeMove, inside_if, on_if,
};
use rows::kinds::{IDENTIFIER, SCOPE, STAR};
use rows::languages::{C, CPP};
use rows::word_numbers::{ATOMIC, BIT_INT, DECLTYPE, NO_WORD, NOEXCEPT};
use type_nodes::nodes::{exact_word, is_single_token};
use type_nodes::sets::{
    is_c_builtin_type_word, is_c_family_declarator_qualifier, is_reference_operator, is_typeof_word,
};
use type_nodes::shapes::{BRACKETED, NO_NODE, PARENTHESIZED, TEMPLATE_ARGUMENTS};

fn scope_has_valid_neighbors(left: u8, right: u8) -> bool
    ensures { result ≡ scope_has_valid_neighbors left right }
{
    ((left == NO_NODE) | (left == IDENTIFIER) | (left == TEMPLATE_ARGUMENTS))
        & ((right == IDENTIFIER) | (right == STAR))
}

fn is_part_of_name(left: u8, right: u8) -> bool
    ensures { result ≡ is_part_of_name left right }
{
    (right == SCOPE) | (right == TEMPLATE_ARGUMENTS) | (left == SCOPE)
}

pub fn abstract_declarator_node(
    language: u8,
    left: u8,
    shape: u8,
    word: u8,
    right: u8,
    st: DeclaratorLoop,
) -> DeclaratorMove
    ensures { declarator_move_of result ≡ abstract_declarator_node language left shape word right (declarator_state_of st) }
{
    let operated = DeclaratorLoop {
        saw_operator: true,
        ..st
    };
    if shape == STAR {
        return on_if(!st.saw_reference, operated);
    }
    if is_reference_operator(shape) {
        let referring = DeclaratorLoop {
            saw_operator: true,
            saw_reference: true,
        };
        return on_if((language == CPP) & !st.saw_reference, referring);
    }
    if shape == IDENTIFIER {
        let known = is_c_family_declarator_qualifier(word);
        return on_if(known | is_part_of_name(left, right), st);
    }
    if shape == SCOPE {
        let good = scope_has_valid_neighbors(left, right);
        return on_if((language == CPP) & good, st);
    }
    if shape == TEMPLATE_ARGUMENTS {
        let list = (language == CPP) & (left == IDENTIFIER);
        return inside_if(list, Inner::Arguments, st);
    }
    if shape == PARENTHESIZED {
        return inside_if(true, Inner::Declarator, operated);
    }
    if shape == BRACKETED {
        return inside_if(true, Inner::ArrayBound, operated);
    }
    Move::Stop(false)
}

// Parentheses start the declarator, but not those after `_BitInt`.
fn c_family_group(language: u8, before: u8, st: TypeLoop) -> TypeMove
    ensures { type_move_of result ≡ c_family_group language before (type_state_of st) }
{
    let begun = TypeLoop {
        declarator_started: true,
        ..st
    };
    if before == DECLTYPE {
        return inside_if(language == CPP, Inner::Expression, begun);
    }
    if is_typeof_word(before) {
        return inside_if(true, Inner::TypeOrExpression, begun);
    }
    if before == ATOMIC {
        return inside_if(language == C, Inner::TypeName, begun);
    }
    if before == BIT_INT {
        return inside_if(language == C, Inner::Expression, st);
    }
    if (before == NOEXCEPT) & st.declarator_started {
        return inside_if(language == CPP, Inner::OptionalExpression, begun);
    }
    inside_if(true, Inner::DeclaratorOrParameters(st.saw_type_word), begun)
}

// At a node that is no word: the loop takes words itself.
pub fn c_family_node(
    language: u8,
    left: u8,
    before: u8,
    shape: u8,
    word: u8,
    right: u8,
    st: TypeLoop,
) -> TypeMove
    requires { eqb shape Identifier ≡ false }
    ensures { type_move_of result ≡ c_family_node language left before shape word right (type_state_of st) }
{
    let named = TypeLoop {
        saw_type_word: true,
        ..st
    };
    let begun = TypeLoop {
        declarator_started: true,
        ..st
    };
    if shape == SCOPE {
        let good = scope_has_valid_neighbors(left, right);
        return on_if((language == CPP) & good, st);
    }
    if shape == TEMPLATE_ARGUMENTS {
        let list = (language == CPP) & (left == IDENTIFIER);
        return inside_if(list, Inner::Arguments, named);
    }
    if shape == STAR {
        return on_if(st.saw_type_word & !st.saw_reference, begun);
    }
    if is_reference_operator(shape) {
        let referring = TypeLoop {
            saw_reference: true,
            ..begun
        };
        let first = (language == CPP) & st.saw_type_word & !st.saw_reference;
        return on_if(first, referring);
    }
    if shape == PARENTHESIZED {
        return c_family_group(language, before, st);
    }
    if shape == BRACKETED {
        return inside_if(st.saw_type_word, Inner::ArrayBound, begun);
    }
    Move::Stop(false)
}

impl Level<'_> {
    // A type of one node, a name or a builtin type word: no walk is needed to accept it.
    pub fn is_type_word(&self) -> bool
        ensures { let row = self.now.row.now in Of row.tree.now row.kinds.now self.now.from self.now.to (λ x. result ≡ (is_single_token row.kinds.now Identifier x && (eqb (exact_word row.kinds.now row.words.now x) no_word || is_c_builtin_type_word (exact_word row.kinds.now row.words.now x)))) }
    {
        let Level { row, from, to } = *self;
        let ReadRow {
            tree,
            kinds,
            words,
            ..
        } = *row;
        if is_single_token(tree, kinds, IDENTIFIER, from, to) {
            let word = exact_word(tree, kinds, words, from, to);
            return (word == NO_WORD) | is_c_builtin_type_word(word);
        }
        false
    }
}

// Where `c_family_node` goes on past a word, a `::` and an argument list.

pub fn takes_word(word: u8, declarator_started: bool) -> bool
    ensures { result ≡ (not declarator_started || is_c_family_declarator_qualifier word) }
{
    if declarator_started {
        return is_c_family_declarator_qualifier(word);
    }
    true
}

pub fn takes_scope(language: u8, left: u8, shape: u8, right: u8) -> bool
    ensures { result ≡ (eqb shape Scope && (eqb language Cpp && scope_has_valid_neighbors left right)) }
{
    if shape != SCOPE {
        return false;
    }
    (language == CPP) & scope_has_valid_neighbors(left, right)
}

pub fn takes_list(language: u8, left: u8, shape: u8) -> bool
    ensures { result ≡ (eqb shape TemplateArguments && (eqb language Cpp && eqb left Identifier)) }
{
    if shape != TEMPLATE_ARGUMENTS {
        return false;
    }
    (language == CPP) & (left == IDENTIFIER)
}
