// The four lent tables: where each list stands in the link table, and the rules R1 to R9.
#![tactic(auto)]

pub mod layout;
pub mod lists;
pub mod owners;
pub mod places;
pub mod rules;
pub mod writing;

ghost use Rattle.std.specs.Prelude.{◌≡◌, true, length, Some};
ghost use Rattle.table.specs.Told.{text_of};
ghost use Rattle.params.specs.Bounds.{within_bounds};
ghost use Rattle.table.specs.Layout.{lengths_hold};
ghost use Rattle.table.specs.Verdict.{verdict_of};

use kinds::{Id, Level};
use params::Header;
use std::error::Error;
use std::fmt;

// The first broken rule, with the lowest id concerned, and for R6 to R9 the lowest level of that id.
#[derive(Clone, Copy, Debug, PartialEq, Eq)]
pub enum Broken {
    R1,
    R2,
    R3(Id),
    R4(Id),
    R5(Id),
    R6(Id, Level),
    R7(Id, Level),
    R8(Id, Level),
    R9(Id, Level),
}

impl fmt::Display for Broken {
    ghost output = { λ broken. Some (text_of broken) };

    fn fmt<W: fmt::Write>(&self, f: &mut fmt::Formatter<W>) -> fmt::Result {
        match self {
            Broken::R1 => f.write_str(
                "R1: more ids are built than added, or added than there is room for",
            ),
            Broken::R2 => f.write_str(
                "R2: the metric's number is above 3, or 0 although ids are built",
            ),
            Broken::R3(id) => write!(f, "R3: id {}: its level is not one that it may have", id.0),
            Broken::R4(id) => write!(f, "R4: id {}: its mark is not one that it may have", id.0),
            Broken::R5(id) => write!(
                f,
                "R5: id {}: a coordinate is not finite, or not zero before the id is added",
                id.0
            ),
            Broken::R6(id, level) => write!(
                f,
                "R6: id {}, level {}: the list's count is above its slots, or no list may be here",
                id.0, level.0
            ),
            Broken::R7(id, level) => write!(
                f,
                "R7: id {}, level {}: a slot past the list's count is not zero",
                id.0, level.0
            ),
            Broken::R8(id, level) => write!(
                f,
                "R8: id {}, level {}: the list holds its owner, or an id not built or not that high",
                id.0, level.0
            ),
            Broken::R9(id, level) => write!(
                f,
                "R9: id {}, level {}: the list holds an id twice",
                id.0, level.0
            ),
        }
    }
}

impl Error for Broken {}

// The rules R1 to R9 in their order. Bounds and lengths are tested before. The header comes by value beside
// lent tables, of which vectors, levels and marks are parallel by id: so 01 has it.
#[tactic(auto, using(params::proofs::BoundLaws::bounds_hold, crate::proofs::ShapeLaws::lengths_are), unfolding(crate::specs::Verdict::verdict_of))]
pub fn test(
    header: Header,
    vectors: &[f32],
    levels: &[u8],
    marks: &[u8],
    links: &[u16],
) -> Result<(), Broken>
    requires { (within_bounds header ≡ true) × (lengths_hold header (length vectors.now) (length levels.now) (length marks.now) (length links.now) ≡ true) }
    ensures { result ≡ verdict_of header vectors.now levels.now marks.now links.now }
{
    places::test_r1(header)?;
    places::test_r2_to_r5(header, vectors, levels, marks)?;
    owners::test_r6_to_r9(header, levels, links)
}

#[cfg(test)]
mod tests {
    use super::*;
    use std::test::Fail;

    const ID: Id = Id(4095);

    const LEVEL: Level = Level(20);

    const TOLD: [(Broken, &str); 9] = [
        (
            Broken::R1,
            "R1: more ids are built than added, or added than there is room for",
        ),
        (
            Broken::R2,
            "R2: the metric's number is above 3, or 0 although ids are built",
        ),
        (
            Broken::R3(ID),
            "R3: id 4095: its level is not one that it may have",
        ),
        (
            Broken::R4(ID),
            "R4: id 4095: its mark is not one that it may have",
        ),
        (
            Broken::R5(ID),
            "R5: id 4095: a coordinate is not finite, or not zero before the id is added",
        ),
        (
            Broken::R6(ID, LEVEL),
            "R6: id 4095, level 20: the list's count is above its slots, or no list may be here",
        ),
        (
            Broken::R7(ID, LEVEL),
            "R7: id 4095, level 20: a slot past the list's count is not zero",
        ),
        (
            Broken::R8(ID, LEVEL),
            "R8: id 4095, level 20: the list holds its owner, or an id not built or not that high",
        ),
        (
            Broken::R9(ID, LEVEL),
            "R9: id 4095, level 20: the list holds an id twice",
        ),
    ];

    // The contract says what is printed where printing succeeds. That it does is run.
    #[test]
    fn a_broken_rule_is_printed(rt: HostRuntime) -> Result<(), Fail> {
        for (broken, text) in TOLD {
            let printed = format!(in rt.alloc(); "{broken}")?;
            assert_eq!(rt; printed.as_str(), text);
        }
        Ok(())
    }
}
