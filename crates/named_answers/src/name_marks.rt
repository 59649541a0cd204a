// The name list and the row: which of its tokens are names.

ghost use Rattle.named_answers.specs.NamedAnswersSay.{FindsNames, MarksReady};

use names::table::{BUCKETS, MOST_NAMES, NameTable};

// Of each token before a `<`, whether its word is one of the names of the second file; false if that is malformed. The table of names is made here, once
// a call.
pub fn find_names(file: &[u8], kinds: &[u8], names: &[u8], marks: &mut [bool]) -> bool
    requires { MarksReady file.now kinds.now marks.old }
    ensures { FindsNames file.now kinds.now names.now marks.new result }
{
    let mut places = [0u32; MOST_NAMES];
    let mut heads = [0u16; BUCKETS];
    let mut links = [0u16; MOST_NAMES];
    let mut table = NameTable {
        names,
        count: 0,
        places: &mut places,
        heads: &mut heads,
        links: &mut links,
    };
    if !table.read_names() {
        return false;
    }
    table.mark_names(file, kinds, marks);
    true
}
