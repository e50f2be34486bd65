// The rules R1 to R5, each at the first place at which it is broken. The header comes by value beside lent tables, as 01 has it.
ghost use Rattle.std.specs.Prelude.{◌≡◌, ℕ, ◌+◌, ◌*◌, ◌<◌, ◌≤◌, Bool, length};
ghost use Rattle.kinds.specs.declared.Id.{Id};
ghost use Rattle.table.specs.declared.Broken.{Broken};
ghost use Rattle.table.specs.First.{unless, each};
ghost use Rattle.table.specs.Rules.{r5_row};
ghost use Rattle.table.specs.Verdict.{id_of, verdict1, verdict2to5};

use crate::{Broken, rules};
use kinds::Id;
use params::Header;

pub fn test_r1(header: Header) -> Result<(), Broken>
    ensures { result ≡ verdict1 header }
{
    if rules::r1_holds(header) {
        Ok(())
    } else {
        Err(Broken::R1)
    }
}

// A rule of the first n ids: it holds of each, or is broken by the first of which it does not.
fn each_id<F: Fn(Id) -> bool, B: Fn(Id) -> Broken>(
    n: u16,
    holds: F,
    broken: B,
) -> Result<(), Broken>
    requires testable { (id : ℕ) → id < n → F.pre holds (id_of id) }
    requires tellable { B.IsAlwaysCallable broken }
    ensures { (rule : ℕ → Bool) (told : ℕ → Broken) → ((id : ℕ) (b : Bool) → id < n → F.post holds (id_of id) b → b ≡ rule id) → ((id : Id) (e : Broken) → B.post broken id e → e ≡ told id.0) → result ≡ each n (λ id. unless (rule id) (told id)) }
{
    for id in 0..n {
        let id = Id(id);
        if !holds(id) {
            return Err(broken(id));
        }
    }
    Ok(())
}

// R5 at each coordinate of an id.
fn coordinates_hold(header: Header, vectors: &[f32], id: Id) -> bool
    requires { id.0 * header.dimension + header.dimension ≤ length vectors.now }
    ensures { result ≡ r5_row header vectors.now id.0 }
{
    let dimension = header.dimension as usize;
    let from = id.0 as usize * dimension;
    (from..from + dimension).all(|j| rules::r5_holds(header, vectors, j))
}

#[tactic(auto, unfolding(crate::specs::Verdict::verdict2to5))]
pub fn test_r2_to_r5(
    header: Header,
    vectors: &[f32],
    levels: &[u8],
    marks: &[u8],
) -> Result<(), Broken>
    requires { (0 < header.dimension) × (length vectors.now ≡ header.params.max_item * header.dimension) × (header.params.max_item ≤ length levels.now) × (header.params.max_item ≤ length marks.now) }
    ensures { result ≡ verdict2to5 header vectors.now levels.now marks.now }
{
    if !rules::r2_holds(header) {
        return Err(Broken::R2);
    }
    let n = header.params.max_item;
    each_id(n, |id| rules::r3_holds(header, levels, id), Broken::R3)?;
    each_id(n, |id| rules::r4_holds(header, marks, id), Broken::R4)?;
    each_id(n, |id| coordinates_hold(header, vectors, id), Broken::R5)
}
