//! From the text of footprints to the footprints, or to the first line at fault.
ghost use Rattle.mk_name.specs.Gives.{Answers};
ghost use Rattle.mk_foot.specs.Footprints.{AreFootprintsRead};

use crate::foot_reader::FootReader;
use crate::footprints::Footprints;
use mk_name::fault::Halt;
use mk_text::root::Root;
use std::alloc::Global;

/// Reads footprints, one object of JSON a line (profile). Its `target` is a path, its `reads` and `writes` are lists of
/// paths, and other keys mean nothing. A path of these lists whose last byte is `/` is a tree: its name and all that stands
/// below it. Lines with nothing but spaces, tabs and carriage returns are passed over; the last line needs no newline.
/// Several lines of one target unite.
///
/// The first of these faults is answered, each in the footprints at its line from 1, without names: `BadFootprint` at a
/// line that is no such object in UTF-8, or that has a text that `plain_path` refuses; `FootprintsTooLarge` at the line
/// with which all paths so far, those that are read and those that are written, repeats too, are more than 1,000,000; a tree
/// counts as one path. The only other error is out of memory.
pub fn read_footprints(alloc: Global, text: &[u8], root: &Root) -> Result<Footprints, Halt>
    ensures { Answers result (AreFootprintsRead root.now text.now) }
{
    let mut reader = FootReader::new(alloc, root.copy(alloc)?);
    // `finish` answers the same fault.
    let _fed = reader.feed(text);
    reader.finish()
}
