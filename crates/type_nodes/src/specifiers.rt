// The declaration specifiers at the head of a C or C++ type name: `validate_c_decl_specifiers`, and what its loop does at a node, a function for each
// arm of the original's `match`. `before`: word of the node before the node; `right`, `second`: shape and word of the node after it. `seen`: how
// often each builtin type word and each qualifier was seen, by word number; `none` and `single`: no builtin type word was, and one once, kept beside
// the counts so that most types need not look through them.

ghost use Rattle.std.specs.Prelude.{◌≡◌, true, not, ◌&&◌, ◌||◌, [], ◌∷◌, ◌<◌, eqb, if◌then◌else◌};
ghost use Rattle.rows.specs.Notation.{◌is_one_of◌};
ghost use Rattle.rows.specs.Languages.{Cpp};
ghost use Rattle.rows.specs.Kinds.{Identifier, Scope};
ghost use Rattle.rows.specs.Words.{no_word, _BitInt};
ghost use Rattle.type_nodes.specs.Shapes.{Parenthesized, TemplateArguments};
ghost use Rattle.type_nodes.specs.Sets.{parenthesis_words};
ghost use Rattle.type_nodes.specs.Combination.{once_more, no_builtin_word, validate_c_bit_int_sign, validate_c_builtin_combination, counted_words};
ghost use Rattle.type_nodes.specs.Specifiers.{specifiers_end, parenthesis_word, qualifier_word, elaborated_word, builtin_word, name_word, leading_global_scope, specifier_scope, specifier_list, specifier_node, validate_c_decl_specifiers};
ghost use Rattle.type_nodes.specs.Stands.{WordedNodes, Of};
ghost use Rattle.type_nodes.specs.RepresentedSpecifiers.{specifiers_of, SpecifierMoves, Always, Goes, Serves, Tells};

use crate::combination::{
    COUNTED_WORDS, has, validate_c_bit_int_sign, validate_c_builtin_combination,
};
use crate::nodes::{exact_word, node_end, shape_at};
use crate::sets::{
    is_c_builtin_type_word, is_c_family_declarator_qualifier, is_cpp_elaborated_word,
    is_elaborated_word, is_keyword, is_parenthesis_word, is_sign,
};
use crate::shapes::{PARENTHESIZED, TEMPLATE_ARGUMENTS};
use rows::kinds::{IDENTIFIER, SCOPE};
use rows::languages::{C, CPP};
use rows::word_numbers::{BIT_INT, NO_WORD};

// What was seen besides the words that are counted.
#[derive(Clone, Copy)]
pub struct SpecifierFlags {
    pub saw_named_type: bool,
    pub saw_elaborated: bool,
    pub saw_bit_int: bool,
    pub previous_was_scope: bool,
}

const NO_FLAGS: SpecifierFlags = SpecifierFlags {
    saw_named_type: false,
    saw_elaborated: false,
    saw_bit_int: false,
    previous_was_scope: false,
};

// `Count`: go on, with the word seen once more. A move does not hold the counts, since an enum can hold no array.
#[derive(Clone, Copy)]
pub enum SpecifierMove {
    Stop(bool),
    On(SpecifierFlags),
    Count(u8, SpecifierFlags),
}

// Whether the builtin type words may stand before such a word and its parentheses.
fn builtin_words_are_valid(word: u8, seen: &[u32; COUNTED_WORDS], none: bool) -> bool
    requires { none ≡ no_builtin_word seen.now }
    ensures { result ≡ (if eqb word _BitInt then validate_c_bit_int_sign seen.now else no_builtin_word seen.now) }
{
    if word == BIT_INT {
        return validate_c_bit_int_sign(seen);
    }
    none
}

fn on_if(ok: bool, flags: SpecifierFlags) -> SpecifierMove
    ensures { Goes result ok (λ seen. specifiers_of seen flags) }
{
    if ok {
        return SpecifierMove::On(flags);
    }
    SpecifierMove::Stop(false)
}

fn count_if(ok: bool, word: u8, flags: SpecifierFlags) -> SpecifierMove
    requires { word < counted_words }
    ensures { Goes result ok (λ seen. specifiers_of (once_more word seen) flags) }
{
    if ok {
        return SpecifierMove::Count(word, flags);
    }
    SpecifierMove::Stop(false)
}

// One builtin type word alone goes together with any qualifiers.
fn specifiers_end(
    seen: &[u32; COUNTED_WORDS],
    none: bool,
    single: bool,
    flags: SpecifierFlags,
) -> bool
    requires { (none ≡ no_builtin_word seen.now) × (single ≡ true → validate_c_builtin_combination seen.now ≡ true) }
    ensures { result ≡ specifiers_end (specifiers_of seen.now flags) }
{
    if flags.previous_was_scope {
        return false;
    }
    if flags.saw_bit_int {
        return validate_c_bit_int_sign(seen);
    }
    if none {
        return flags.saw_named_type | flags.saw_elaborated;
    }
    if single {
        return true;
    }
    validate_c_builtin_combination(seen)
}

// A word that makes a specifier with the parentheses after it.
fn parenthesis_word(
    word: u8,
    seen: &[u32; COUNTED_WORDS],
    none: bool,
    flags: SpecifierFlags,
) -> SpecifierMove
    requires { none ≡ no_builtin_word seen.now }
    ensures { SpecifierMoves seen.now result (parenthesis_word word (specifiers_of seen.now flags)) }
{
    let valid = builtin_words_are_valid(word, seen, none);
    on_if(
        !flags.saw_named_type & !flags.saw_elaborated & valid,
        SpecifierFlags {
            saw_named_type: true,
            saw_bit_int: word == BIT_INT,
            ..flags
        },
    )
}

fn qualifier_word(word: u8, seen: &[u32; COUNTED_WORDS], flags: SpecifierFlags) -> SpecifierMove
    requires { word < counted_words }
    ensures { SpecifierMoves seen.now result (qualifier_word word (specifiers_of seen.now flags)) }
{
    let new = !has(seen, word);
    count_if(new, word, flags)
}

// The first word of an elaborated name.
fn elaborated_word(
    language: u8,
    word: u8,
    right: u8,
    none: bool,
    flags: SpecifierFlags,
) -> SpecifierMove
    ensures { Serves result none (λ seen. elaborated_word language word right (specifiers_of seen flags)) }
{
    let foreign = (language == C) & is_cpp_elaborated_word(word);
    on_if(
        !foreign & !flags.saw_named_type & none & !flags.saw_elaborated & (right == IDENTIFIER),
        SpecifierFlags {
            saw_elaborated: true,
            ..flags
        },
    )
}

fn builtin_word(word: u8, flags: SpecifierFlags) -> SpecifierMove
    requires { word < counted_words }
    ensures { Always result (λ seen. builtin_word word (specifiers_of seen flags)) }
{
    let sign = flags.saw_bit_int & is_sign(word);
    count_if(
        !flags.saw_elaborated & (!flags.saw_named_type | sign),
        word,
        SpecifierFlags {
            previous_was_scope: false,
            ..flags
        },
    )
}

// Any other word: a name.
fn name_word(none: bool, flags: SpecifierFlags) -> SpecifierMove
    ensures { Serves result none (λ seen. name_word (specifiers_of seen flags)) }
{
    on_if(
        none & (!flags.saw_named_type | flags.previous_was_scope | flags.saw_elaborated),
        SpecifierFlags {
            saw_named_type: true,
            previous_was_scope: false,
            ..flags
        },
    )
}

fn leading_global_scope(none: bool, flags: SpecifierFlags) -> bool
    ensures { Tells result none (λ seen. leading_global_scope (specifiers_of seen flags)) }
{
    !flags.saw_named_type & !flags.saw_elaborated & none & !flags.previous_was_scope
}

// `::` after a name, or leading: then it must introduce a name and no keyword.
fn specifier_scope(
    language: u8,
    right: u8,
    second: u8,
    none: bool,
    flags: SpecifierFlags,
) -> SpecifierMove
    ensures { Serves result none (λ seen. specifier_scope language right second (specifiers_of seen flags)) }
{
    let leading = leading_global_scope(none, flags);
    let introduces = (right == IDENTIFIER) & !is_keyword(second);
    let known = flags.saw_named_type | leading;
    on_if(
        (language == CPP) & !flags.previous_was_scope & known & (!leading | introduces),
        SpecifierFlags {
            previous_was_scope: true,
            ..flags
        },
    )
}

// A template argument list.
fn specifier_list(language: u8, flags: SpecifierFlags) -> SpecifierMove
    ensures { Always result (λ seen. specifier_list language (specifiers_of seen flags)) }
{
    on_if(
        (language == CPP) & flags.saw_named_type & !flags.previous_was_scope,
        flags,
    )
}

// A word, whatever the words beside it.
fn specifier_word(
    language: u8,
    word: u8,
    right: u8,
    seen: &[u32; COUNTED_WORDS],
    none: bool,
    flags: SpecifierFlags,
) -> SpecifierMove
    requires { none ≡ no_builtin_word seen.now }
    ensures { SpecifierMoves seen.now result (specifier_node language no_word Identifier word right no_word (specifiers_of seen.now flags)) }
{
    if is_parenthesis_word(word) & (right == PARENTHESIZED) {
        return parenthesis_word(word, seen, none, flags);
    }
    if is_c_builtin_type_word(word) {
        return builtin_word(word, flags);
    }
    if is_c_family_declarator_qualifier(word) {
        return qualifier_word(word, seen, flags);
    }
    if is_elaborated_word(word) {
        return elaborated_word(language, word, right, none, flags);
    }
    name_word(none, flags)
}

// Whether the specifiers end before a node of this shape: the original's three `break`, and where there is no node.
fn ends_specifiers(before: u8, shape: u8) -> bool
    ensures { result ≡ not (shape is_one_of (Identifier ∷ Scope ∷ TemplateArguments ∷ []) || (eqb shape Parenthesized && before is_one_of parenthesis_words)) }
{
    if shape == IDENTIFIER {
        return false;
    }
    if shape == SCOPE {
        return false;
    }
    if shape == TEMPLATE_ARGUMENTS {
        return false;
    }
    if shape == PARENTHESIZED {
        return !is_parenthesis_word(before);
    }
    true
}

// What is done at a node that does not end the specifiers. Parentheses are then those of the word before them, which is all that is asked of it.
fn specifier_node(
    language: u8,
    before: u8,
    shape: u8,
    word: u8,
    right: u8,
    second: u8,
    seen: &[u32; COUNTED_WORDS],
    none: bool,
    flags: SpecifierFlags,
) -> SpecifierMove
    requires { (none ≡ no_builtin_word seen.now) × ((shape is_one_of (Identifier ∷ Scope ∷ TemplateArguments ∷ []) || (eqb shape Parenthesized && before is_one_of parenthesis_words)) ≡ true) }
    ensures { SpecifierMoves seen.now result (specifier_node language before shape word right second (specifiers_of seen.now flags)) }
{
    if shape == IDENTIFIER {
        return specifier_word(language, word, right, seen, none, flags);
    }
    if shape == SCOPE {
        return specifier_scope(language, right, second, none, flags);
    }
    if shape == TEMPLATE_ARGUMENTS {
        return specifier_list(language, flags);
    }
    SpecifierMove::On(flags)
}

// The two nodes that most specifiers are made of are taken in the loop: a name, and `::` after one.

fn is_plain_name(shape: u8, word: u8, none: bool, flags: SpecifierFlags) -> bool
    ensures { result ≡ (eqb shape Identifier && eqb word no_word && none && (not flags.saw_named_type || flags.previous_was_scope || flags.saw_elaborated)) }
{
    (shape == IDENTIFIER)
        & (word == NO_WORD)
        & none
        & (!flags.saw_named_type | flags.previous_was_scope | flags.saw_elaborated)
}

fn is_scope_after_name(language: u8, shape: u8, flags: SpecifierFlags) -> bool
    ensures { result ≡ (eqb shape Scope && eqb language Cpp && flags.saw_named_type && not flags.previous_was_scope) }
{
    (shape == SCOPE) & (language == CPP) & flags.saw_named_type & !flags.previous_was_scope
}

pub fn validate_c_decl_specifiers(
    language: u8,
    tree: &[u32],
    kinds: &[u8],
    words: &[u8],
    from: usize,
    to: usize,
) -> bool
    requires { WordedNodes tree.now kinds.now words.now from to }
    ensures { Of tree.now kinds.now from to (λ x. result ≡ validate_c_decl_specifiers language kinds.now words.now x) }
{
    let mut seen: [u32; COUNTED_WORDS] = [0; COUNTED_WORDS];
    let mut none = true;
    let mut single = false;
    let mut flags = NO_FLAGS;
    let mut before = NO_WORD;
    let mut at = from;
    loop {
        let shape = shape_at(tree, kinds, at, to);
        if ends_specifiers(before, shape) {
            return specifiers_end(&seen, none, single, flags);
        }
        let word = exact_word(tree, kinds, words, at, to);
        let next = node_end(tree, kinds, at, to);
        if is_plain_name(shape, word, none, flags) {
            flags.saw_named_type = true;
            flags.previous_was_scope = false;
            before = word;
            at = next;
            continue;
        }
        if is_scope_after_name(language, shape, flags) {
            flags.previous_was_scope = true;
            before = word;
            at = next;
            continue;
        }
        let right = shape_at(tree, kinds, next, to);
        let second = exact_word(tree, kinds, words, next, to);
        let step = specifier_node(
            language, before, shape, word, right, second, &seen, none, flags,
        );
        match step {
            SpecifierMove::Stop(answer) => return answer,
            SpecifierMove::On(after) => {
                flags = after;
            }
            SpecifierMove::Count(counted, after) => {
                let i = counted as usize;
                let builtin = is_c_builtin_type_word(counted);
                seen[i] += 1;
                single = (builtin & none) | (!builtin & single);
                none = none & !builtin;
                flags = after;
            }
        }
        before = word;
        at = next;
    }
}
