// `type_name_outer`.

ghost use Rattle.outer.specs.OuterPromises.{OuterPromised};

// `exports::template::type_name_outer` for C.
#[unsafe(no_mangle)]
pub extern "C" fn type_name_outer(tree: &[u32]) -> u32
    ensures { OuterPromised tree.now result }
{
    exports::template::type_name_outer(tree)
}
