// The rules R1 to R5, each as a test at one place. The header comes by value beside lent tables, as 01 has it.
ghost use Rattle.std.specs.Prelude.{◌≡◌, ◌*◌, ◌<◌, length};
ghost use Rattle.std.specs.Float.Ieee.Scale.{finite};
ghost use Rattle.table.specs.Rules.{r1, r2, r3, r4, r5, is_zero};

use kinds::Id;
use params::Header;

pub fn r1_holds(header: Header) -> bool
    ensures { result ≡ r1 header }
{
    header.built <= header.added && header.added <= header.params.max_item
}

// The metric's number, as the header has it: 3 is Euclidean's.
pub fn r2_holds(header: Header) -> bool
    ensures { result ≡ r2 header }
{
    header.metric <= 3 && (header.built == 0 || 1 <= header.metric)
}

#[tactic(auto, unfolding(crate::specs::Rules::r3))]
pub fn r3_holds(header: Header, levels: &[u8], id: Id) -> bool
    requires { id.0 < length levels.now }
    ensures { result ≡ r3 header levels.now id.0 }
{
    let level = levels[id.0 as usize] as u16;
    let top = header.params.max_level;
    if id.0 < header.added {
        level <= top && (id.0 != 0 || level == top)
    } else {
        level == 0
    }
}

// Marks are bytes, as 01 lends them.
#[tactic(auto, unfolding(crate::specs::Rules::r4))]
pub fn r4_holds(header: Header, marks: &[u8], id: Id) -> bool
    requires { id.0 < length marks.now }
    ensures { result ≡ r4 header marks.now id.0 }
{
    match marks[id.0 as usize] {
        0 => true,
        1 => id.0 < header.built && header.params.has_deletion,
        _ => false,
    }
}

#[tactic(auto, using(crate::proofs::Coordinates::finite_is))]
pub fn is_finite(x: f32) -> bool
    ensures { result ≡ finite x }
{
    x.is_finite()
}

// All bits are zero. A NaN's bits cannot be spoken of.
pub fn is_zero(x: f32) -> bool
    ensures { result ≡ is_zero x }
{
    !x.is_nan() && x.to_bits() == 0
}

// At the coordinate j of the whole table.
#[tactic(auto, unfolding(crate::specs::Rules::r5))]
pub fn r5_holds(header: Header, vectors: &[f32], j: usize) -> bool
    requires { j < length vectors.now }
    ensures { result ≡ r5 header vectors.now j }
{
    if j < header.added as usize * header.dimension as usize {
        is_finite(vectors[j])
    } else {
        is_zero(vectors[j])
    }
}
