// A list of the link table, and the rules R6 to R9, each as a test of one list.
ghost use Rattle.std.specs.Prelude.{◌≡◌, ◌<◌, ◌≤◌, length};
ghost use Rattle.table.specs.Layout.{HasList, count_at, slots_at, list_at, slack_at};
ghost use Rattle.table.specs.Rules.{r6, r7, r8, r9, may_list, distinct};

use crate::layout;
use kinds::{Id, Level};
use params::Header;

// The list of an id at a level, which lies within the table.
#[derive(Clone, Copy, Debug)]
pub struct List<'a> {
    pub header: Header,
    pub links: &'a [u16],
    pub id: Id,
    pub level: Level,
    pub ghost within: { HasList header.params links.now id.0 level.0 },
}

impl<'a> List<'a> {
    // How many ids it says that it holds.
    #[tactic(auto, unfolding(crate::specs::Layout::count_at))]
    pub fn count(self) -> usize
        ensures { result ≡ count_at self.entry.header.params self.entry.links.now self.entry.id.0 self.entry.level.0 }
    {
        let start = layout::list_start(self.header.params, self.id, self.level);
        self.links[start] as usize
    }

    #[tactic(auto, unfolding(crate::specs::Layout::slots_at))]
    fn slots(self) -> &'a [u16]
        ensures { result.now ≡ slots_at self.entry.header.params self.entry.links.now self.entry.id.0 self.entry.level.0 }
    {
        let from = layout::list_start(self.header.params, self.id, self.level) + 1;
        &self.links[from..from + layout::slots_len(self.header.params, self.level)]
    }

    // The ids that it holds: at most as many as it has slots.
    #[tactic(auto, unfolding(crate::specs::Layout::list_at))]
    pub fn ids(self) -> &'a [u16]
        ensures { result.now ≡ list_at self.entry.header.params self.entry.links.now self.entry.id.0 self.entry.level.0 }
    {
        let slots = self.slots();
        &slots[..self.count().min(slots.len())]
    }

    // Its slots past its count.
    #[tactic(auto, unfolding(crate::specs::Layout::slack_at))]
    pub fn slack(self) -> &'a [u16]
        ensures { result.now ≡ slack_at self.entry.header.params self.entry.links.now self.entry.id.0 self.entry.level.0 }
    {
        let slots = self.slots();
        &slots[self.count().min(slots.len())..]
    }

    #[tactic(auto, unfolding(crate::specs::Rules::r6))]
    pub fn r6_holds(self, levels: &[u8]) -> bool
        requires { self.id.0 < length levels.now }
        ensures { result ≡ r6 self.entry.header levels.now self.entry.links.now self.entry.id.0 self.entry.level.0 }
    {
        let count = self.count();
        let has_list = self.id.0 < self.header.built && self.level.0 <= levels[self.id.0 as usize];
        count <= layout::slots_len(self.header.params, self.level) && (has_list || count == 0)
    }

    #[tactic(auto, unfolding(crate::specs::Rules::r7))]
    pub fn r7_holds(self) -> bool
        ensures { result ≡ r7 self.entry.header self.entry.links.now self.entry.id.0 self.entry.level.0 }
    {
        self.slack().iter().all(|x| *x == 0)
    }

    // An id that the list may hold.
    fn may_hold(self, levels: &[u8], listed: Id) -> bool
        requires { self.header.built ≤ length levels.now }
        ensures { result ≡ may_list self.entry.header levels.now self.entry.id.0 self.entry.level.0 listed.0 }
    {
        listed.0 < self.header.built
            && listed.0 != self.id.0
            && self.level.0 <= levels[listed.0 as usize]
    }

    #[tactic(auto, unfolding(crate::specs::Rules::r8))]
    pub fn r8_holds(self, levels: &[u8]) -> bool
        requires { self.header.built ≤ length levels.now }
        ensures { result ≡ r8 self.entry.header levels.now self.entry.links.now self.entry.id.0 self.entry.level.0 }
    {
        self.ids().iter().all(|x| self.may_hold(levels, Id(*x)))
    }

    #[tactic(auto, unfolding(crate::specs::Rules::r9))]
    pub fn r9_holds(self) -> bool
        ensures { result ≡ r9 self.entry.header self.entry.links.now self.entry.id.0 self.entry.level.0 }
    {
        is_distinct(self.ids())
    }
}

// Not inlined, so that `r9_holds` is: else a whole `List` would be written out for each list of a table.
#[inline(never)]
#[tactic(auto, unfolding(crate::specs::Rules::distinct))]
fn is_distinct(list: &[u16]) -> bool
    ensures { result ≡ distinct list.now }
{
    let mut left = list;
    while let Some((x, rest)) = left.split_first() {
        if rest.contains(x) {
            return false;
        }
        left = rest;
    }
    true
}
