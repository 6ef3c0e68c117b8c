//! What the lines of a text lead to, with the texts that include lines open in it.
//!
//! The calls go round from the lines of a text to a line, its words, and the lines of the text that a word
//! names. Each round takes one from `room`, so they never lie deeper than that.
ghost use Rattle.std.specs.Prelude.{◌≡◌, ◌<◌, ◌+◌, map, suc, IfErr, OnErr, OnOk};
ghost use Rattle.mk_macro.specs.Macros as specs;
ghost use Rattle.mk_macro.specs.Macros.{macros_of};
ghost use Rattle.mk_lines.specs.LogicalLine.{parts_of};
ghost use Rattle.mk_include.specs.Includes.{texts_of, reported_in};
ghost use Rattle.mk_include.specs.Words.{include_limit};
ghost use Rattle.mk_rules.specs.Before.{IsBefore};
ghost use Rattle.mk_rules.specs.Begun.{Begun, IfMemory, IncludeBegun, TextBegun, WordBegun, line_begun};
ghost use Rattle.mk_rules.specs.Placed.{placed};
ghost use Rattle.mk_rules.specs.Reading.{AssignmentSays, EntryLineSays, IncludeSays, Leads, Point, Steps, TextSays, WordSays, line_says, point};

use crate::before::Before;
use crate::entry::read_entry;
use crate::placed::{Placed, begins_with_command};
use crate::rule::Rule;
use mk_include::cut::Cut;
use mk_include::includes::Includes;
use mk_include::words::{word_text, words};
use mk_lines::line::Line;
use mk_lines::parts::{EntryParts, IncludeParts, Parts};
use mk_macro::macros::Macros;
use mk_name::fault::{Halt, Source};
use mk_name::name::Name;
use mk_text::root::Root;
use std::alloc::Global;

/// What stays the same for all lines. The macros before an include line are kept where `kept` include lines
/// began before it.
#[derive(Drop)]
pub(crate) struct Reader<'r, 't> {
    pub(crate) alloc: Global,
    pub(crate) includes: &'r Includes<'t>,
    pub(crate) root: &'r Root,
    pub(crate) kept: Option<usize>,
}

/// What was read so far: the entries, how many texts were taken in, and how many include lines began. `again`
/// is set where the macros before an include line are needed and were not kept: so many include lines began
/// before it. The reading then ends as if memory were refused.
#[derive(Drop)]
pub(crate) struct SoFar {
    pub(crate) rules: Vec<Rule>,
    pub(crate) taken: usize,
    pub(crate) begun: usize,
    pub(crate) again: Option<usize>,
}

impl<'r, 't> Reader<'r, 't> {
    /// Does what an assignment says.
    fn read_assignment(
        &self,
        placed: &Placed,
        macros: &mut Macros,
        so_far: &mut SoFar,
    ) -> Result<(), Halt>
        ensures leads { Leads result (point so_far.new.rules.items so_far.new.taken macros.new)
            (AssignmentSays (point so_far.old.rules.items so_far.old.taken macros.old) placed.now) }
        ensures unchanged { OnErr result (macros_of macros.new ≡ macros_of macros.old) }
    {
        match macros.assign(self.alloc, placed.line) {
            Ok(()) => Ok(()),
            Err(halt) => Err(placed.reports(self.alloc, halt)),
        }
    }

    /// Adds the entry of a line.
    fn read_entry(
        &self,
        placed: &Placed,
        parts: &EntryParts,
        macros: &Macros,
        so_far: &mut SoFar,
    ) -> Result<(), Halt>
        ensures { Leads result (point so_far.new.rules.items so_far.new.taken macros.now)
            (EntryLineSays self.now.root.now parts.now
            (point so_far.old.rules.items so_far.old.taken macros.now) placed.now) }
    {
        match read_entry(self.alloc, placed, parts, macros, self.root) {
            Ok(rule) => {
                so_far.rules.push(rule)?;
                Ok(())
            }
            Err(halt) => Err(placed.reports(self.alloc, halt)),
        }
    }

    /// Reads the text of a name.
    #[cycle(texts)]
    fn read_text(
        &self,
        room: usize,
        name: Name,
        cut: &Cut,
        macros: &mut Macros,
        so_far: &mut SoFar,
    ) -> Result<(), Halt>
        requires room { 0 < room }
        requires taken { so_far.old.taken < include_limit }
        ensures leads { Leads result (point so_far.new.rules.items so_far.new.taken macros.new)
            (TextSays (line_says self.now.root.now (texts_of self.now.includes.now) room)
            (point so_far.old.rules.items (so_far.old.taken + 1) macros.old) name (reported_in name cut.now)) }
        ensures begun { IfErr result (λ halt. IfMemory halt (TextBegun
            (line_begun self.now.root.now (texts_of self.now.includes.now) room)
            (line_says self.now.root.now (texts_of self.now.includes.now) room)
            (point so_far.old.rules.items (so_far.old.taken + 1) macros.old) name
            (reported_in name cut.now) (macros_of macros.new))) }
    {
        so_far.taken += 1;
        let lines = cut.lines(self.alloc, &name)?;
        self.read_lines(room - 1, &Source::Include(name), lines, macros, so_far)
    }

    /// Reads the text that a word of an include line names. The word's own fault leaves the macros before
    /// the line.
    #[cycle(texts)]
    fn read_word(
        &self,
        room: usize,
        placed: &Placed,
        hyphen: bool,
        before: &mut Before,
        word: &[u8],
        macros: &mut Macros,
        so_far: &mut SoFar,
    ) -> Result<(), Halt>
        ensures leads { (first : specs.Macros) → IsBefore before.old macros.old first
            → Leads result (point so_far.new.rules.items so_far.new.taken macros.new)
            (WordSays self.now.root.now (texts_of self.now.includes.now) hyphen room
            (line_says self.now.root.now (texts_of self.now.includes.now) room) placed.now first
            (point so_far.old.rules.items so_far.old.taken macros.old) word.now) }
        ensures begun { (first : specs.Macros) → IsBefore before.old macros.old first
            → IfErr result (λ halt. IfMemory halt (WordBegun self.now.root.now
            (texts_of self.now.includes.now) hyphen room
            (line_begun self.now.root.now (texts_of self.now.includes.now) room)
            (line_says self.now.root.now (texts_of self.now.includes.now) room) first
            (point so_far.old.rules.items so_far.old.taken macros.old) word.now
            (macros_of macros.new))) }
        ensures before { OnOk result ((first : specs.Macros) → IsBefore before.old macros.old first
            → IsBefore before.new macros.new first) }
    {
        let (taken, alloc) = (so_far.taken, self.alloc);
        match word_text(alloc, self.includes, hyphen, room, taken, word, self.root) {
            Ok(None) => Ok(()),
            Ok(Some((name, cut))) => {
                before.pass();
                self.read_text(room, name, cut, macros, so_far)
            }
            Err(halt) => match before.take_back(macros) {
                None => Err(placed.reports(alloc, halt)),
                Some(begun) => {
                    so_far.again = Some(begun);
                    Err(Halt::Memory)
                }
            },
        }
    }

    /// Reads the texts that the words of an include line name. A word's own fault takes back what was
    /// assigned since the line.
    #[cycle(texts)]
    fn read_words(
        &self,
        room: usize,
        placed: &Placed,
        hyphen: bool,
        words: &[&[u8]],
        macros: &mut Macros,
        so_far: &mut SoFar,
    ) -> Result<(), Halt>
        ensures leads { Leads result (point so_far.new.rules.items so_far.new.taken macros.new)
            (λ answer. Steps (WordSays self.now.root.now (texts_of self.now.includes.now) hyphen room
            (line_says self.now.root.now (texts_of self.now.includes.now) room) placed.now
            (macros_of macros.old)) (point so_far.old.rules.items so_far.old.taken macros.old)
            (map (λ word. word.now) words.now) answer) }
        ensures begun { IfErr result (λ halt. IfMemory halt (Begun
            (WordBegun self.now.root.now (texts_of self.now.includes.now) hyphen room
            (line_begun self.now.root.now (texts_of self.now.includes.now) room)
            (line_says self.now.root.now (texts_of self.now.includes.now) room) (macros_of macros.old))
            (WordSays self.now.root.now (texts_of self.now.includes.now) hyphen room
            (line_says self.now.root.now (texts_of self.now.includes.now) room) placed.now
            (macros_of macros.old)) (point so_far.old.rules.items so_far.old.taken macros.old)
            (map (λ word. word.now) words.now) (macros_of macros.new))) }
    {
        let begun = so_far.begun;
        so_far.begun = begun.saturating_add(1);
        let mut before = Before::new(self.kept == Some(begun), begun, macros)?;
        for word in words {
            self.read_word(room, placed, hyphen, &mut before, word, macros, so_far)?;
        }
        Ok(())
    }

    /// Reads an include line.
    #[cycle(texts)]
    fn read_include(
        &self,
        room: usize,
        placed: &Placed,
        parts: &IncludeParts,
        macros: &mut Macros,
        so_far: &mut SoFar,
    ) -> Result<(), Halt>
        ensures leads { Leads result (point so_far.new.rules.items so_far.new.taken macros.new)
            (IncludeSays self.now.root.now (texts_of self.now.includes.now) room
            (line_says self.now.root.now (texts_of self.now.includes.now) room) parts.now
            (point so_far.old.rules.items so_far.old.taken macros.old) placed.now) }
        ensures begun { IfErr result (λ halt. IfMemory halt (IncludeBegun self.now.root.now
            (texts_of self.now.includes.now) room
            (line_begun self.now.root.now (texts_of self.now.includes.now) room)
            (line_says self.now.root.now (texts_of self.now.includes.now) room) parts.now
            (point so_far.old.rules.items so_far.old.taken macros.old) placed.now
            (macros_of macros.new))) }
    {
        match macros.expand(self.alloc, parts.rest()) {
            Ok(text) => {
                let words = words(self.alloc, &text)?;
                self.read_words(room, placed, parts.has_hyphen(), &words, macros, so_far)
            }
            Err(halt) => Err(placed.reports(self.alloc, halt)),
        }
    }

    /// Reads a line.
    #[cycle(texts)]
    fn read_line(
        &self,
        room: usize,
        placed: &Placed,
        macros: &mut Macros,
        so_far: &mut SoFar,
    ) -> Result<(), Halt>
        ensures leads { Leads result (point so_far.new.rules.items so_far.new.taken macros.new)
            (line_says self.now.root.now (texts_of self.now.includes.now) (suc room)
            (point so_far.old.rules.items so_far.old.taken macros.old) placed.now) }
        ensures begun { IfErr result (λ halt. IfMemory halt (line_begun self.now.root.now
            (texts_of self.now.includes.now) (suc room)
            (point so_far.old.rules.items so_far.old.taken macros.old) placed.now
            (macros_of macros.new))) }
    {
        match placed.line.parts() {
            Parts::Assign(_) => self.read_assignment(placed, macros, so_far),
            Parts::Entry(parts) => self.read_entry(placed, &parts, macros, so_far),
            Parts::Recipe => Ok(()),
            Parts::Include(parts) => self.read_include(room, placed, &parts, macros, so_far),
        }
    }

    /// Reads the lines of a text, inside which texts may open `room` deep.
    #[cycle(texts)]
    pub(crate) fn read_lines(
        &self,
        room: usize,
        source: &Source,
        lines: &[Line],
        macros: &mut Macros,
        so_far: &mut SoFar,
    ) -> Result<(), Halt>
        ensures leads { Leads result (point so_far.new.rules.items so_far.new.taken macros.new)
            (λ answer. Steps (line_says self.now.root.now (texts_of self.now.includes.now) (suc room))
            (point so_far.old.rules.items so_far.old.taken macros.old) (placed source.now lines.now)
            answer) }
        ensures begun { IfErr result (λ halt. IfMemory halt (Begun
            (line_begun self.now.root.now (texts_of self.now.includes.now) (suc room))
            (line_says self.now.root.now (texts_of self.now.includes.now) (suc room))
            (point so_far.old.rules.items so_far.old.taken macros.old) (placed source.now lines.now)
            (macros_of macros.new))) }
    {
        for (i, line) in lines.iter().enumerate() {
            let placed = Placed {
                source,
                line,
                command_below: begins_with_command(&lines[i + 1..]),
            };
            self.read_line(room, &placed, macros, so_far)?;
        }
        Ok(())
    }
}
