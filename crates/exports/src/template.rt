// `type_name_outer`.

ghost use Rattle.outer.specs.OuterPromises.{OuterPromised};

use outer::entry::outer_arguments;

// How many arguments the list has that the numbers of a tree begin with, behind a word, as `outer_arguments` counts them: 0 if they begin otherwise.
pub fn type_name_outer(tree: &[u32]) -> u32
    ensures { OuterPromised tree.now result }
{
    outer_arguments(tree)
}
