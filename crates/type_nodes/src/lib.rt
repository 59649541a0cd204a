// The words and nodes that a type is made of: what a node is to the rules, the sets of words and operators, the declaration specifiers. Its definitions
// are in specs/.

#![tactic(auto)]

pub mod abstract_declarators;
pub mod combination;
pub mod nodes;
pub mod sets;
pub mod shapes;
pub mod specifiers;
pub mod split_on_commas;
