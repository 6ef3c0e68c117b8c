//! The lines of the makefiles, read one after another.
ghost use Rattle.std.specs.Prelude.{◌≡◌, [], suc, IfErr};
ghost use Rattle.std.specs.Result.{result_map_both};
ghost use Rattle.mk_name.specs.Gives.{Answers};
ghost use Rattle.mk_macro.specs.Macros.{macros_of};
ghost use Rattle.mk_macro.specs.Answers.{AnswersLeft};
ghost use Rattle.mk_include.specs.Includes.{texts_of};
ghost use Rattle.mk_rules.specs.Begun.{IfMemory, LinesBegun};
ghost use Rattle.mk_rules.specs.Placed.{all_lines};
ghost use Rattle.mk_rules.specs.Reading.{AnswersEntries, BookSays, LinesSay, MakefilesSay};

use crate::lines::{Reader, SoFar};
use crate::rule::Rule;
use crate::rulebook::Rulebook;
use mk_include::includes::Includes;
use mk_lines::line::Line;
use mk_macro::macros::Macros;
use mk_name::fault::{Fault, Halt, Kind, Source};
use mk_text::root::Root;
use std::alloc::Global;

/// So many texts may open inside the makefiles, one inside another (profile).
pub const DEPTH_LIMIT: usize = 16;

/// The entries of the lines of the base makefile, and then those of the makefile.
fn read_both(
    reader: &Reader,
    base: &[Line],
    makefile: &[Line],
    macros: &mut Macros,
    so_far: &mut SoFar,
) -> Result<(), Halt>
    requires empty { so_far.old.rules.items ≡ [] }
    requires untaken { so_far.old.taken ≡ 0 }
    ensures says { Answers (result_map_both (λ _. so_far.new.rules.items) (λ halt. halt) result)
        (λ answer. LinesSay reader.now.root.now (texts_of reader.now.includes.now)
        (macros_of macros.old) (all_lines base.now makefile.now) answer (macros_of macros.new)) }
    ensures begun { IfErr result (λ halt. IfMemory halt (LinesBegun reader.now.root.now
        (texts_of reader.now.includes.now) (macros_of macros.old) (all_lines base.now makefile.now)
        (macros_of macros.new))) }
{
    reader.read_lines(DEPTH_LIMIT, &Source::Base, base, macros, so_far)?;
    reader.read_lines(DEPTH_LIMIT, &Source::Makefile, makefile, macros, so_far)
}

/// The entries of all lines. `again` comes to say before which include line the macros have to be kept, if the
/// reading needs them and the reader does not keep them.
fn read_once(
    reader: &Reader,
    base: &[Line],
    makefile: &[Line],
    macros: &mut Macros,
    again: &mut Option<usize>,
) -> Result<Vec<Rule>, Halt>
    ensures says { AnswersEntries result (λ answer. LinesSay reader.now.root.now
        (texts_of reader.now.includes.now) (macros_of macros.old) (all_lines base.now makefile.now)
        answer (macros_of macros.new)) }
    ensures begun { IfErr result (λ halt. IfMemory halt (LinesBegun reader.now.root.now
        (texts_of reader.now.includes.now) (macros_of macros.old) (all_lines base.now makefile.now)
        (macros_of macros.new))) }
{
    let mut so_far = SoFar {
        rules: Vec::new(reader.alloc),
        taken: 0,
        begun: 0,
        again: None,
    };
    let result = read_both(reader, base, makefile, macros, &mut so_far);
    *again = so_far.again;
    match result {
        Ok(()) => Ok(so_far.rules),
        Err(halt) => Err(halt),
    }
}

/// The entries of all lines. They are read a second time where an include line is refused behind a text of
/// its own: only then the macros before it are needed, and so they are kept for that line alone.
fn read_all(
    alloc: Global,
    base: &[Line],
    makefile: &[Line],
    includes: &Includes,
    macros: &mut Macros,
    root: &Root,
) -> Result<Vec<Rule>, Halt>
    ensures says { AnswersEntries result (λ answer. LinesSay root.now (texts_of includes.now)
        (macros_of macros.old) (all_lines base.now makefile.now) answer (macros_of macros.new)) }
    ensures begun { IfErr result (λ halt. IfMemory halt (LinesBegun root.now (texts_of includes.now)
        (macros_of macros.old) (all_lines base.now makefile.now) (macros_of macros.new))) }
{
    let first = macros.copy()?;
    let mut again = None;
    let mut reader = Reader {
        alloc,
        includes,
        root,
        kept: None,
    };
    let result = read_once(&reader, base, makefile, macros, &mut again);
    if again.is_none() {
        return result;
    }
    *macros = first;
    reader.kept = again;
    read_once(&reader, base, makefile, macros, &mut again)
}

/// Refuses a book in which a target gets commands a second time.
fn refuse_second(alloc: Global, book: &Rulebook) -> Result<(), Halt>
    ensures { AnswersLeft result book.now (BookSays book.now) }
{
    if let Some((place, name)) = book.second_recipe() {
        let source = book.rule_source(place).copy(alloc)?;
        let (line, name) = (book.rule_line(place), name.copy(alloc)?);
        let fault = Fault::naming(alloc, Kind::TwoRecipes, source, line, name)?;
        return Err(Halt::Fault(fault));
    }
    Ok(())
}

/// The book, unless a target gets commands a second time.
fn checked(alloc: Global, book: Rulebook) -> Result<Rulebook, Halt>
    ensures { Answers result (BookSays book) }
{
    refuse_second(alloc, &book)?;
    Ok(book)
}

/// The rulebook of the lines of a base makefile and a makefile ("Macros", "Target Rules", "Inference
/// Rules", "Special Targets", "Include Lines"). The base lines come first. An assignment changes the macros
/// for the lines below it; an entry's targets and its prerequisites are expanded with the macros before its
/// line. An include line is read as the lines of the texts that its words name, one text behind another:
/// its rest is expanded once, with the macros before the line, and a text may be named many times. Behind
/// `-include` a name that no text has is passed over (profile).
///
/// Errors, the first line that has one, reported at its source and its first physical line: that of an
/// assignment, of an entry's expansion, or of the expansion of an include line's rest; `BadName` for the
/// first word of a part that spells no name; `MixedSpecial` for a special target beside another;
/// `DefaultPrerequisites` where `.DEFAULT` has prerequisites. In an entry the targets come before the
/// prerequisites. The words of an include line are read from the left, and the text of one before the next:
/// `BadName`, `UnknownInclude` for a name that no text has, `IncludeTooDeep` where [`DEPTH_LIMIT`] texts are
/// open around it, `TooManyIncludes` behind 1,000 texts in all (profile); then the faults of the text's own
/// lines, as [`mk_lines::lines::lines`] reports them, in the source `Include` of its plain name. After all
/// lines `TwoRecipes` for the first target rule that gives commands to a target which has some from one
/// before it: it reports the first such target, at the rule's line. Out of memory may come in place of any
/// answer.
///
/// The macros are left as the lines say: after a refused line those before it, and so after a bad word of
/// an include line without what the texts of its earlier words assigned; after a fault of an included
/// text's own lines those before the word that names it; after `TwoRecipes` and after success those behind
/// all lines; and after out of memory those behind some beginning of the lines.
pub fn read_rules(
    alloc: Global,
    base: &[Line],
    makefile: &[Line],
    includes: &Includes,
    macros: &mut Macros,
    root: &Root,
) -> Result<Rulebook, Halt>
    ensures says { Answers result (λ answer. MakefilesSay root.now (texts_of includes.now)
        (macros_of macros.old) (all_lines base.now makefile.now) answer (macros_of macros.new)) }
    ensures begun { IfErr result (λ halt. IfMemory halt (LinesBegun root.now (texts_of includes.now)
        (macros_of macros.old) (all_lines base.now makefile.now) (macros_of macros.new))) }
{
    let rules = read_all(alloc, base, makefile, includes, macros, root)?;
    let book = Rulebook::new(alloc, rules)?;
    checked(alloc, book)
}
