// Which tokens of a row are names: document 02, C-17.

ghost use Rattle.names.specs.NamesSay.{Marks, MarksRoom, TableThere};

use crate::table::{NameTable, is_name, word_there};
use rows::bytes::two_bytes;
use rows::head::HEAD_LENGTH;
use rows::kinds::LESS;

// Of each token of a file's row directly before a `<`, whether its word is one of the names; other marks stay. It goes from record to record by their
// lengths, so that no token's place is kept.
pub fn mark_names(
    file: &[u8],
    kinds: &[u8],
    names: &[u8],
    places: &[u32],
    heads: &[u16],
    links: &[u16],
    marks: &mut [bool],
)
    requires { TableThere names.now heads.now links.now places.now × MarksRoom file.now kinds.now marks.old }
    ensures { Marks file.now kinds.now names.now heads.now links.now places.now marks.old marks.new }
{
    let mut next = HEAD_LENGTH;
    for i in 1..kinds.len() {
        let record = next;
        next = record + two_bytes(file, record);
        if kinds[i] != LESS {
            continue;
        }
        let left = i - 1;
        let sought = word_there(file, record);
        marks[left] = is_name(names, places, heads, links, sought);
    }
}

impl NameTable<'_> {
    // The same, by this table.
    pub fn mark_names(&self, file: &[u8], kinds: &[u8], marks: &mut [bool])
        requires { MarksRoom file.now kinds.now marks.old }
        ensures { Marks file.now kinds.now self.now.names.now self.now.heads.now self.now.links.now self.now.places.now marks.old marks.new }
    {
        mark_names(
            file,
            kinds,
            self.names,
            self.places,
            self.heads,
            self.links,
            marks,
        );
    }
}
