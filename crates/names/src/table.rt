// The table of names: which of them share a bucket, linked from the newest on.

ghost use Rattle.std.specs.Prelude.{◌≡◌, ◌+◌, ◌<◌, ◌^◌, if◌then◌else◌, length};
ghost use Rattle.names.specs.NameList.{most_names};
ghost use Rattle.names.specs.NamesSay.{Adds, Looks, LooksInChain, SomeChain, SomeRecord, SomeTable, TableThere, bucket_of, buckets, word_of};
ghost use Rattle.names.specs.OneList.{SomeTable-prop};

use rows::bytes::{same_bytes, two_bytes};
use rows::format::{current, token_length};

pub const MOST_NAMES: usize = 512;

pub const BUCKETS: usize = 512;

const FACTOR: usize = 31;

// The table of the first `count` names of a lent list: where each name's record begins, the newest name of each bucket, by its number from 1, and of each
// name the newest before it in its bucket. 0 for none: `Option<u16>` would take twice the memory.
#[derive(Drop)]
pub struct NameTable<'a> {
    pub names: &'a [u8],
    pub count: usize,
    pub places: &'a mut [u32],
    pub heads: &'a mut [u16],
    pub links: &'a mut [u16],
    ghost held: { SomeTable names.now count heads.now links.now places.now } by { SomeTable-prop names.now count heads.now links.now places.now },
}

// The word of the well-formed token record at a byte offset.
pub fn word_there(file: &[u8], place: usize) -> &[u8]
    requires { SomeRecord file.now place }
    ensures { result.now ≡ word_of file.now place }
{
    let begin = place + token_length(current());
    let end = place + two_bytes(file, place);
    &file[begin..end]
}

// The bucket that a word is looked for in.
pub fn bucket_of(word: &[u8]) -> usize
    ensures value { result ≡ bucket_of word.now }
    ensures small { result < buckets }
{
    let mut bucket: usize = 0;
    for &byte in word {
        bucket = (bucket * FACTOR + usize::from(byte)) % BUCKETS;
    }
    bucket
}

// The word is one of the names of its bucket, of which `first` is the newest one's number, from 1, or 0.
fn in_chain(names: &[u8], places: &[u32], links: &[u16], first: usize, sought: &[u8]) -> bool
    requires { SomeChain names.now links.now places.now first sought.now }
    ensures { LooksInChain names.now links.now places.now first sought.now result }
{
    let mut entry = first;
    while 0 < entry {
        let number = entry - 1;
        let name = word_there(names, places[number] as usize);
        if same_bytes(name, sought) {
            return true;
        }
        entry = usize::from(links[number]);
    }
    false
}

// The word is one of the names of a table that is lent to be read, however many they are.
pub fn is_name(names: &[u8], places: &[u32], heads: &[u16], links: &[u16], sought: &[u8]) -> bool
    requires { TableThere names.now heads.now links.now places.now }
    ensures { Looks names.now heads.now links.now places.now sought.now result }
{
    let bucket = bucket_of(sought);
    let first = usize::from(heads[bucket]);
    in_chain(names, places, links, first, sought)
}

impl NameTable<'_> {
    // The same, of this table.
    fn in_chain(&self, first: usize, sought: &[u8]) -> bool
        requires { SomeChain self.now.names.now self.now.links.now self.now.places.now first sought.now }
        ensures { LooksInChain self.now.names.now self.now.links.now self.now.places.now first sought.now result }
    {
        in_chain(self.names, self.places, self.links, first, sought)
    }

    // The word is one of the names.
    pub fn is_name(&self, sought: &[u8]) -> bool
        ensures { Looks self.now.names.now self.now.heads.now self.now.links.now self.now.places.now sought.now result }
    {
        is_name(self.names, self.places, self.heads, self.links, sought)
    }

    // One name more, the word of the well-formed record at a byte offset, unless it is one of those that are in the table.
    pub fn add_name(&mut self, at: usize) -> bool
        requires { (self.old.count < most_names) × SomeRecord self.old.names.now at × (at < 2 ^ 32) }
        ensures added { Adds self.old.names.now at self.old.count self.old.heads.now self.old.links.now self.old.places.now result self.new.heads.now self.new.links.now self.new.places.now }
        ensures counted { self.new.count ≡ (if result then self.old.count + 1 else self.old.count) }
        ensures kept { self.new.names ≡ self.old.names }
        ensures same_arrays { (self.new.heads.ghost_name ≡ self.old.heads.ghost_name) × (self.new.links.ghost_name ≡ self.old.links.ghost_name) × (self.new.places.ghost_name ≡ self.old.places.ghost_name) }
        ensures as_long { (length self.new.heads.now ≡ length self.old.heads.now) × (length self.new.links.now ≡ length self.old.links.now) × (length self.new.places.now ≡ length self.old.places.now) }
    {
        let name = word_there(self.names, at);
        let bucket = bucket_of(name);
        let first = self.heads[bucket];
        if self.in_chain(usize::from(first), name) {
            return false;
        }
        self.places[self.count] = at as u32;
        self.links[self.count] = first;
        self.heads[bucket] = (self.count + 1) as u16;
        self.count += 1;
        true
    }
}
