// The pairs of rules that overlap, by earlier, then later place.

ghost use Rattle.std.specs.Prelude.{◌≡◌, ◌+◌, ◌<◌, ◌^◌, max};
ghost use Rattle.rules.specs.TableStands.{LaterTold, OfTable, PairTold, places_meet};

use crate::overlaps::rules_meet;
use crate::table::{AT_ITEMS, RuleTable};

#[derive(Clone, Copy)]
pub struct PairPlaces {
    pub earlier: usize,
    pub later: usize,
}

impl RuleTable<'_> {
    // The rules at two places overlap.
    fn places_meet(&self, earlier: usize, later: usize) -> bool
        requires { (earlier < self.now.count) × (later < self.now.count) }
        ensures { OfTable self.now.bytes.now (λ rs. result ≡ places_meet rs earlier later) }
    {
        let first_end = self.starts[earlier + 1];
        let second_end = self.starts[later + 1];
        let first = self.starts[earlier] + AT_ITEMS;
        let second = self.starts[later] + AT_ITEMS;
        rules_meet(self.bytes, first, first_end, second, second_end)
    }

    // The first place from `from` on whose rule overlaps that at place `earlier`.
    fn first_later(&self, earlier: usize, from: usize) -> Option<usize>
        requires { earlier < self.now.count }
        ensures { OfTable self.now.bytes.now (λ rs. LaterTold rs earlier from self.now.count result) }
    {
        for later in from..self.count {
            if self.places_meet(earlier, later) {
                return Some(later);
            }
        }
        None
    }

    // The first pair that comes after the pair of places handed in, which need be none.
    pub fn next_pair(&self, earlier: usize, later: usize) -> Option<PairPlaces>
        requires { later < 2 ^ 32 }
        ensures { OfTable self.now.bytes.now (λ rs. PairTold rs earlier later result) }
    {
        let mut from = later + 1;
        for i in earlier..self.count {
            let begin = (i + 1).max(from);
            let found = self.first_later(i, begin);
            if let Some(j) = found {
                return Some(PairPlaces {
                    earlier: i,
                    later: j,
                });
            }
            from = 0;
        }
        None
    }
}
