// Which rule of a table wins.

ghost use Rattle.std.specs.Prelude.{◌≡◌, ◌<◌};
ghost use Rattle.type_nodes.specs.Stands.{NodesStand};
ghost use Rattle.rules.specs.Rules.{matches, winner};
ghost use Rattle.rules.specs.Seen.{seen};
ghost use Rattle.rules.specs.Overlaps.{rule};
ghost use Rattle.rules.specs.RowSeen.{OfNodes};
ghost use Rattle.rules.specs.TableStands.{OfTable, winner_of};

use crate::matching::rule_matches;
use crate::row_text::RowText;
use crate::table::{AT_ITEMS, RuleTable};

impl RuleTable<'_> {
    // The rule at a place matches all top-level nodes of a tree.
    fn place_matches(&self, place: usize, row: &RowText<'_>, tree: &[u32], nodes: usize) -> bool
        requires { (place < self.now.count) × NodesStand tree.now row.now.kinds.now 0 nodes }
        ensures { OfNodes row.now.file.now row.now.kinds.now row.now.places.now tree.now 0 nodes (λ ts x. OfTable self.now.bytes.now (λ rs. result ≡ matches (rule rs place) (seen ts x))) }
    {
        let end = self.starts[place + 1];
        let begin = self.starts[place] + AT_ITEMS;
        rule_matches(self.bytes, end, begin, row, tree, nodes)
    }

    // The first rule that matches all top-level nodes of a tree.
    pub fn find_winner(&self, row: &RowText<'_>, tree: &[u32], nodes: usize) -> Option<usize>
        requires { NodesStand tree.now row.now.kinds.now 0 nodes }
        ensures { OfNodes row.now.file.now row.now.kinds.now row.now.places.now tree.now 0 nodes (λ ts x. OfTable self.now.bytes.now (λ rs. winner_of result ≡ winner rs (seen ts x))) }
    {
        for place in 0..self.count {
            if self.place_matches(place, row, tree, nodes) {
                return Some(place);
            }
        }
        None
    }
}
