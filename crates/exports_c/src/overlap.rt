// `type_name_overlap`.

ghost use Rattle.exports.specs.Overlap.{OverlapReturned};

// `exports::overlap::type_name_overlap` for C.
#[unsafe(no_mangle)]
pub extern "C" fn type_name_overlap(
    rules: &[u8],
    earlier: u32,
    later: u32,
    sequence: &mut [u8],
    numbers: &mut [u32],
) -> u32
    ensures { OverlapReturned rules.now earlier later sequence.old sequence.new numbers.old result numbers.new }
{
    exports::overlap::type_name_overlap(rules, earlier, later, sequence, numbers)
}
