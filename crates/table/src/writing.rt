// Writing a list in place. Table, id and level come one by one: a struct that holds `&mut` links would have to promise in each
// contract that these are still the same links.
ghost use Rattle.std.specs.Prelude.{◌≡◌, ◌<◌, ◌≤◌, length};
ghost use Rattle.table.specs.Layout.{HasList, slots, count_at, replaced, appended};

use crate::layout;
use kinds::{Id, Level};
use params::HNSWParams;

// Puts an id behind those that a list holds. The list has a free slot.
#[tactic(auto, using(crate::proofs::WritingLaws::slots_under), unfolding(crate::specs::Layout::count_at, crate::specs::Layout::appended))]
pub fn append(params: HNSWParams, links: &mut [u16], id: Id, level: Level, listed: Id)
    requires { HasList params links.old id.0 level.0 × (count_at params links.old id.0 level.0 < slots params level.0) }
    ensures { links.new ≡ appended params links.old id.0 level.0 listed.0 }
{
    let start = layout::list_start(params, id, level);
    let count = links[start];
    let slot = start + 1 + count as usize;
    links[slot] = listed.0;
    links[start] = count + 1;
}

// Makes a list hold these ids and no other.
pub fn replace(params: HNSWParams, links: &mut [u16], id: Id, level: Level, ids: &[u16])
    requires { HasList params links.old id.0 level.0 × (length ids.now ≤ slots params level.0) }
    ensures { links.new ≡ replaced params links.old id.0 level.0 ids.now }
{
    let start = layout::list_start(params, id, level);
    let from = start + 1;
    let past = from + ids.len();
    links[from..past].copy_from_slice(ids);
    links[past..from + layout::slots_len(params, level)].fill(0);
    links[start] = ids.len() as u16;
}
