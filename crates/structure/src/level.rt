// The nodes that a check is asked of.

ghost use Rattle.std.specs.Prelude.{◌≡◌};
ghost use Rattle.type_nodes.specs.Stands.{WordedNodes};
ghost use Rattle.structure.specs.OneWay.{worded_one_way};

// A row that was read: its tree, over its kinds and word numbers, in a language.
#[derive(Clone, Copy)]
pub struct ReadRow<'a> {
    pub language: u8,
    pub tree: &'a [u32],
    pub kinds: &'a [u8],
    pub words: &'a [u8],
}

// The nodes from number `from` up to `to` of a row's tree. A check makes one for each node that it looks below: so it refers to what stays the same.
#[derive(Clone, Copy)]
pub struct Level<'a> {
    pub row: &'a ReadRow<'a>,
    pub from: usize,
    pub to: usize,
    pub ghost stands: { WordedNodes row.now.tree.now row.now.kinds.now row.now.words.now from to } by { worded_one_way row.now.tree.now row.now.kinds.now row.now.words.now from to },
}

impl<'a> Level<'a> {
    // Other nodes of the tree.
    pub fn within(&self, from: usize, to: usize) -> Level<'a>
        requires { WordedNodes self.now.row.now.tree.now self.now.row.now.kinds.now self.now.row.now.words.now from to }
        ensures { (h : _) × (result ≡ record self.now { from = from; to = to; stands = h }) }
    {
        Level {
            row: self.row,
            from,
            to,
        }
    }
}
