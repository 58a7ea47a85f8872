//! What is kept of a code: a few of its places, its greatest height, and what is wrong wherever its jumps go.
ghost use Rattle.std.specs.Prelude.{◌≡◌, ◌⊎◌, ◌++◌, ◌∷◌, [], int_lt, if◌then◌else◌, OnOk};
ghost use Rattle.object_file.specs.Firsts.{place_or};
ghost use Rattle.object_file.specs.Links.{AreLinksOf};
ghost use Rattle.object_file.specs.Surveys.{Surveys};
ghost use Rattle.object_file.specs.Views.{procedure_of, world_in};

use crate::fault::CodeFault;
use crate::findings::{Findings, with};
use crate::links::Links;
use crate::parts::Parts;
use crate::point::Place;
use crate::walk::{behind, first, point_at};
use m2_base::ProcCode;
use std::alloc::{AllocError, Global};

/// How many bytes of code have one mark.
pub(crate) const SPACING: usize = 32;

/// What is kept of a code.
#[derive(Drop)]
pub(crate) struct Survey {
    /// For each multiple of `SPACING` a place not far before it, from which a walk leads to what lies behind.
    pub(crate) marks: Vec<Place>,
    /// The greatest height.
    pub(crate) highest: i128,
    pub(crate) found: Findings,
    /// A place before which nothing jumps.
    pub(crate) jumps: Place,
}

/// Marks a place, if none is known before this end yet.
fn add_mark(marks: &mut Vec<Place>, place: Place, end: usize) -> Result<(), AllocError>
    ensures { OnOk result ((marks.new.items ≡ marks.old.items) ⊎ (marks.new.items ≡ marks.old.items ++ place ∷ [])) }
{
    if marks.len() <= end / SPACING {
        marks.push(place)?;
    }
    Ok(())
}

fn greater(most: i128, place: Place) -> i128
    ensures { result ≡ (if int_lt most place.height then place.height else most) }
{
    if most < place.height {
        place.height
    } else {
        most
    }
}

fn place_of(jump: Option<Place>, end: Place) -> Place
    ensures { result ≡ place_or jump end }
{
    match jump {
        Some(place) => place,
        None => end,
    }
}

/// Walks over the code of procedure k.
pub(crate) fn survey_of(
    alloc: Global,
    parts: &Parts,
    links: &Links,
    k: u32,
    own: &ProcCode,
) -> Result<Survey, CodeFault>
    requires { AreLinksOf (world_in parts.now) links.now }
    ensures { Surveys (world_in parts.now) k (procedure_of own.now) result }
{
    let mut marks = Vec::new(alloc);
    let mut highest = 0;
    let mut found = Findings {
        wrong: None,
        low: None,
        jump: None,
    };
    let mut place = first();
    while let Some(point) = point_at(parts, own, place) {
        add_mark(&mut marks, place, point.end)?;
        found = with(found, parts, links, k, own, place, &point);
        place = behind(&point);
        highest = greater(highest, place);
    }
    if place.at < own.code.len() {
        return Err(CodeFault::InCode(place.at, 5));
    }
    let jumps = place_of(found.jump, place);
    Ok(Survey {
        marks,
        highest,
        found,
        jumps,
    })
}
