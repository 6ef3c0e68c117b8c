//! Footprints that come in pieces.
ghost use Rattle.std.specs.Prelude.{◌≡◌, ◌≢◌, ◌+◌, ◌-◌, ◌^◌, None, Some, IfErr, IfOk, length, min};
ghost use Rattle.std.specs.Option.{option_to_list};
ghost use Rattle.mk_name.specs.declared.fault.Source.TheVariants as sources;
ghost use Rattle.mk_text.specs.declared.line_sink.Stop.TheVariants as stops;
ghost use Rattle.mk_foot.specs.FootReader.{HasUnited};
ghost use Rattle.mk_foot.specs.Footprints.{AreRead};
ghost use Rattle.mk_foot.specs.Lines.{lines_in};

use crate::footprints::Footprints;
use crate::line::{FootprintLine, line_of};
use crate::object::is_blank;
use mk_json::Scratch;
use mk_name::fault::{Kind, Source};
use mk_text::line_feed::LineFeed;
use mk_text::line_sink::{LineSink, Stop};
use mk_text::root::Root;
use std::alloc::{AllocError, Global};
use std::marker::Model;

/// How many paths footprints may read and write, counted with repeats; tasks may have as many.
pub const PATH_LIMIT: usize = 1_000_000;

/// Reads footprints that come in pieces, whatever the cuts between them, as `read_footprints` reads a text that lies whole.
pub type FootReader = LineFeed<FootSink>;

/// The footprints of lines, one after another.
#[derive(Drop)]
pub struct FootSink {
    scratch: Scratch,
    footprints: Footprints,
    paths: usize,
}

impl Model for FootSink {
    ghost use Rattle.mk_foot.specs.FootReader as reader;

    ghost Value = { reader.United };

    ghost view = { λ a. record { footprints = a.footprints; paths = a.paths } };
}

impl LineSink for FootSink {
    type Value = Footprints;

    /// All bytes of a line count.
    const KEPT: usize = usize::MAX;

    ghost KEPT = { 2 ^ 64 - 1 };

    ghost source = { sources.Footprints };

    ghost says = { AreRead };

    ghost has = { HasUnited };

    fn begin(alloc: Global, root: Root) -> FootSink {
        FootSink {
            scratch: Scratch::new(alloc),
            footprints: Footprints::new(alloc, root),
            paths: 0,
        }
    }

    fn source() -> Source {
        Source::Footprints
    }

    /// `BadFootprint` and `FootprintsTooLarge` are as `read_footprints` reports them.
    fn add(&mut self, alloc: Global, text: &[u8], place: u64) -> Result<(), Stop> {
        let root = self.footprints.root();
        let Some(line) = line_at(alloc, text, &mut self.scratch, place, root)? else {
            return Ok(());
        };
        let paths = with_paths(self.paths, &line);
        if paths > PATH_LIMIT {
            return Err(Stop::Fault(Kind::FootprintsTooLarge, place));
        }
        self.footprints.add(alloc, line)?;
        self.paths = paths;
        Ok(())
    }

    fn finish(self) -> Footprints {
        self.footprints
    }
}

/// What a physical line says; nothing where it is blank. A bad line is a fault at its place.
fn line_at(
    alloc: Global,
    text: &[u8],
    scratch: &mut Scratch,
    place: u64,
    root: &Root,
) -> Result<Option<FootprintLine>, Stop>
    ensures ok { IfOk result (λ line. lines_in root.now text.now ≡ Some (option_to_list line)) }
    ensures bad { IfErr result (λ stop. stop ≢ stops.Memory → lines_in root.now text.now ≡ None) }
    ensures fault { IfErr result (λ stop. stop ≢ stops.Memory → stop ≡ stops.Fault Kind.BadFootprint place) }
{
    if is_blank(text) {
        return Ok(None);
    }
    match line_of(alloc, text, scratch, root)? {
        Some(line) => Ok(Some(line)),
        None => Err(Stop::Fault(Kind::BadFootprint, place)),
    }
}

/// How many paths there are with those of a line. What would pass the greatest number stays there.
fn with_paths(paths: usize, line: &FootprintLine) -> usize
    ensures { result ≡ min (paths + (length line.now.reads + length line.now.writes)) (2 ^ 64 - 1) }
{
    let own = line.reads.len().saturating_add(line.writes.len());
    paths.saturating_add(own)
}
