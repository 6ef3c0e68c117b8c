//! From the texts of a build to its plan: what is read in which order, so that the first fault is answered.
ghost use Rattle.std.specs.Prelude.{◌≡◌, []};
ghost use Rattle.mk_include.specs.Includes as included;
ghost use Rattle.mk_macro.specs.Macros.{macros_of};
ghost use Rattle.mk_name.specs.Gives.{Answers};
ghost use Rattle.mk_lines.specs.GivesLines.{GivesLines};
ghost use Rattle.mk_lines.specs.LogicalLines.{logical_lines};
ghost use Rattle.mk_race.specs.Parts.{IsListedFrom, IsPlannedWith};
ghost use Rattle.mk_race.specs.Stages.{IsBookOf, IsGraphed, IsPlanned, Texts, reported_in, texts_with};

use crate::settings::Operands;
use mk_graph::planning::plan;
use mk_include::includes::Includes;
use mk_jobs::plan::Plan;
use mk_lines::line::Line;
use mk_lines::lines::lines;
use mk_macro::macros::Macros;
use mk_name::fault::{Fault, Halt, Source};
use mk_name::name::Name;
use mk_read::input::Input;
use mk_rules::reading::read_rules;
use mk_rules::rulebook::Rulebook;
use mk_text::listing::Listing;
use mk_text::root::Root;
use std::alloc::Global;

/// The plan of a build, with what it was made from.
#[derive(Debug, Drop)]
pub struct Planned {
    /// The folder that relative paths start from.
    pub root: Root,
    /// The files that are there.
    pub listing: Listing,
    /// The rules of the base makefile and of the makefile.
    pub book: Rulebook,
    /// The plan of what the goals need.
    pub plan: Plan,
}

/// The rules of a build, and their plan.
#[derive(Drop)]
pub(crate) struct Graphed {
    pub(crate) book: Rulebook,
    pub(crate) plan: Plan,
}

/// The plan of what the goals of a build need, whose listing was read into what it says or its first fault. Footprints are not read.
///
/// The first fault is answered, in this order: of the root, of the operands from the left, of the paths of the texts for
/// include lines, of the listing by its lines, of the base makefile and of the makefile by their lines, of their entries,
/// assignments and include lines with the texts that these name, and of the graph. The only other error is out of
/// memory.
pub fn plan_of(
    alloc: Global,
    input: &Input<'_>,
    listing: Result<Listing, Fault>,
) -> Result<Planned, Halt>
    ensures { (texts : Texts) → texts ≡ texts_with input.now texts.listing → IsListedFrom texts listing
        → Answers result (IsPlanned texts) }
{
    plan_read(alloc, input, listing)
}

/// The plan of a build with this listing.
pub(crate) fn plan_read(
    alloc: Global,
    input: &Input<'_>,
    listing: Result<Listing, Fault>,
) -> Result<Planned, Halt>
    ensures { Answers result (IsPlannedWith (texts_with input.now []) listing) }
{
    let root = Root::read(alloc, input.root)?;
    let Operands { goals, macros } = Operands::read(alloc, input.operands, &root)?;
    let mut macros = macros;
    let includes = Includes::read(alloc, input.includes, &root)?;
    match listing {
        Ok(listing) => {
            let goals = goals.as_slice();
            let graphed = graph_of(alloc, input, &root, goals, &includes, &mut macros, &listing)?;
            Ok(Planned {
                root,
                listing,
                book: graphed.book,
                plan: graphed.plan,
            })
        }
        Err(fault) => Err(Halt::Fault(fault)),
    }
}

/// The rules of a build, and the plan of what these goals need.
pub(crate) fn graph_of(
    alloc: Global,
    input: &Input<'_>,
    root: &Root,
    goals: &[Name],
    includes: &Includes<'_>,
    macros: &mut Macros,
    listing: &Listing,
) -> Result<Graphed, Halt>
    ensures { Answers result (IsGraphed (texts_with input.now []) root.now goals.now
        (included.texts_of includes.now) (macros_of macros.old) listing.now) }
{
    let book = book_of(alloc, input, root, includes, macros)?;
    let plan = plan(alloc, &book, listing, goals)?;
    Ok(Graphed { book, plan })
}

/// The rules of a build's base makefile and of its makefile.
fn book_of(
    alloc: Global,
    input: &Input<'_>,
    root: &Root,
    includes: &Includes<'_>,
    macros: &mut Macros,
) -> Result<Rulebook, Halt>
    ensures { Answers result (IsBookOf (texts_with input.now []) root.now
        (included.texts_of includes.now) (macros_of macros.old)) }
{
    let base = lines_in(alloc, Source::Base, input.base)?;
    let makefile = lines_in(alloc, Source::Makefile, input.makefile)?;
    read_rules(alloc, &base, &makefile, includes, macros, root)
}

/// The logical lines of a text, whose faults are reported in this source.
fn lines_in<'a>(alloc: Global, source: Source, text: &'a [u8]) -> Result<Vec<Line<'a>>, Halt>
    ensures { GivesLines result (reported_in source (logical_lines text.now)) }
{
    match lines(alloc, text) {
        Err(Halt::Fault(fault)) => {
            let place = fault.place();
            Err(Halt::Fault(fault.at(source, place)))
        }
        given => given,
    }
}
