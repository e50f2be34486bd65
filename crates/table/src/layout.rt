// Where things stand in the four tables, which are flat, as 01 lends them.
ghost use Rattle.std.specs.Prelude.{◌≡◌, ◌<◌, ◌^◌};
ghost use Rattle.table.specs.Layout.{block, slots, list_start, lengths_hold};

use kinds::{Id, Level};
use params::{HNSWParams, Header};

// The entries of the link table that belong to one id.
#[tactic(auto, unfolding(crate::specs::Layout::block))]
pub fn block_len(params: HNSWParams) -> usize
    ensures { (result ≡ block params) × (result < 2 ^ 33) }
{
    1 + params.n_neighbor0 as usize + params.max_level as usize * (1 + params.n_neighbor as usize)
}

// The slots of a list.
pub fn slots_len(params: HNSWParams, level: Level) -> usize
    ensures { result ≡ slots params level.0 }
{
    if level.0 == 0 {
        params.n_neighbor0 as usize
    } else {
        params.n_neighbor as usize
    }
}

// Where a list's count stands; its slots stand behind it. Id and level come one by one, here and elsewhere: a pair of them would be
// made at each call and taken apart again.
#[tactic(auto, unfolding(crate::specs::Layout::list_start))]
pub fn list_start(params: HNSWParams, id: Id, level: Level) -> usize
    ensures { result ≡ list_start params id.0 level.0 }
{
    let first = id.0 as usize * block_len(params);
    if level.0 == 0 {
        return first;
    }
    let above = level.0 as usize - 1;
    first + 1 + params.n_neighbor0 as usize + above * (1 + params.n_neighbor as usize)
}

// The four tables have the lengths that the header says.
#[tactic(auto, unfolding(crate::specs::Layout::lengths_hold))]
pub fn lengths_hold(
    header: Header,
    vectors: usize,
    levels: usize,
    marks: usize,
    links: usize,
) -> bool
    ensures { result ≡ lengths_hold header vectors levels marks links }
{
    let capacity = header.params.max_item as usize;
    vectors == capacity * header.dimension as usize
        && levels == capacity
        && marks == capacity
        && links == capacity * block_len(header.params)
}
