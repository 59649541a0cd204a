// The name list: document 02, C-17.

ghost use Rattle.std.specs.Prelude.{◌≡◌, length};
ghost use Rattle.names.specs.NamesSay.{ReadsNames};

use crate::table::{MOST_NAMES, NameTable};
use rows::format::current;
use rows::kinds::IDENTIFIER;
use rows::token::{TokenRecord, token_at};

impl NameTable<'_> {
    // Whether the lent list is well formed: token records of distinct names up to its end, one at least. An empty table gets them.
    pub fn read_names(&mut self) -> bool
        requires { self.old.count ≡ 0 }
        ensures told { ReadsNames self.old.names.now result self.new.count self.new.heads.now self.new.links.now self.new.places.now }
        ensures kept { self.new.names ≡ self.old.names }
        ensures same_arrays { (self.new.heads.ghost_name ≡ self.old.heads.ghost_name) × (self.new.links.ghost_name ≡ self.old.links.ghost_name) × (self.new.places.ghost_name ≡ self.old.places.ghost_name) }
        ensures as_long { (length self.new.heads.now ≡ length self.old.heads.now) × (length self.new.links.now ≡ length self.old.links.now) × (length self.new.places.now ≡ length self.old.places.now) }
    {
        let names = self.names;
        let mut at = 0;
        while at < names.len() {
            if self.count == MOST_NAMES {
                return false;
            }
            let found = token_at(current(), names, at);
            let Some(TokenRecord { kind, length }) = found else {
                return false;
            };
            if kind != IDENTIFIER {
                return false;
            }
            if !self.add_name(at) {
                return false;
            }
            at += length;
        }
        self.count != 0
    }
}
