// The rules R6 to R9, each at the first list that breaks it: by owner, then by level. The header comes by value beside lent tables,
// as 01 has it.
ghost use Rattle.std.specs.Prelude.{◌≡◌, ℕ, ◌*◌, ◌<◌, Bool, true, length};
ghost use Rattle.params.specs.Bounds.{within_bounds};
ghost use Rattle.kinds.specs.declared.Id.{Id};
ghost use Rattle.kinds.specs.declared.Level.{Level};
ghost use Rattle.table.specs.declared.Broken.{Broken};
ghost use Rattle.table.specs.declared.lists.List.{List};
ghost use Rattle.table.specs.Layout.{block, Shaped};
ghost use Rattle.table.specs.Verdict.{each_list, verdict6to9};

use crate::Broken;
use crate::lists::List;
use kinds::{Id, Level};
use params::Header;

// A rule of all lists: it holds of each, or is broken by the first of which it does not. `each_id` could not tell the level.
#[tactic(auto, using(params::proofs::BoundLaws::bounds_hold, crate::proofs::ShapeLaws::lies_within))]
fn each_list<'a, F: Fn(List<'a>) -> bool, B: Fn(Id, Level) -> Broken>(
    header: Header,
    links: &'a [u16],
    holds: F,
    broken: B,
) -> Result<(), Broken>
    requires bounded { within_bounds header ≡ true }
    requires whole { length links.now ≡ header.params.max_item * block header.params }
    requires testable { (list : List) → list.header ≡ header → list.links.now ≡ links.now → list.id.0 < header.params.max_item → F.pre holds list }
    requires tellable { B.IsAlwaysCallable broken }
    ensures { (rule : ℕ → ℕ → Bool) (told : ℕ → ℕ → Broken) → ((list : List) (b : Bool) → list.header ≡ header → list.links.now ≡ links.now → F.post holds list b → b ≡ rule list.id.0 list.level.0) → ((id : Id) (level : Level) (e : Broken) → B.post broken id level e → e ≡ told id.0 level.0) → result ≡ each_list header rule told }
{
    for id in 0..header.params.max_item {
        for level in 0..=header.params.max_level as u8 {
            let (id, level) = (Id(id), Level(level));
            let list = List {
                header,
                links,
                id,
                level,
            };
            if !holds(list) {
                return Err(broken(id, level));
            }
        }
    }
    Ok(())
}

pub fn test_r6_to_r9(header: Header, levels: &[u8], links: &[u16]) -> Result<(), Broken>
    requires { Shaped header levels.now links.now }
    ensures { result ≡ verdict6to9 header levels.now links.now }
{
    each_list(header, links, |list| list.r6_holds(levels), Broken::R6)?;
    each_list(header, links, |list| list.r7_holds(), Broken::R7)?;
    each_list(header, links, |list| list.r8_holds(levels), Broken::R8)?;
    each_list(header, links, |list| list.r9_holds(), Broken::R9)
}
