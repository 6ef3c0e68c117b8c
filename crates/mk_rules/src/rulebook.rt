//! The book of rules: what the makefiles say of each name.
ghost use Rattle.std.specs.Prelude.{◌≡◌, ◌<◌, [], true, length, map, slice_get, take, find, position, Some, IfOk, IfErr};
ghost use Rattle.std.specs.List.{All};
ghost use Rattle.std.specs.Option.{option_copied, option_map};
ghost use Rattle.mk_name.specs.Names.{same_name};
ghost use Rattle.mk_rules.specs.Special.{is_suffix};
ghost use Rattle.mk_name.specs.declared.fault.Halt.TheVariants.{Memory};
ghost use Rattle.mk_rules.specs.Book.{book_of, commands_at, default_goal, has_inference, has_recipe, is_phony, is_target, may_be_goal, places_of, prerequisites_of, recipe_place, second_recipe, second_target, targets_of};

use crate::entries::{has_default, inference, phony, suffixes, target_rules, wait_uses};
use crate::hasher::hasher_of;
use crate::index::note_entry;
use crate::names::{into_names, join};
use crate::rule::Rule;
use indexmap::IndexSet;
use mk_name::fault::{Halt, Source};
use mk_name::name::Name;
use mk_table::hasher::{NameHasher, NameSet};
use std::alloc::{AllocError, Global};
use std::marker::Model;

/// What the special targets and the inference rules say.
#[derive(Debug, Drop)]
struct Specials {
    suffixes: NameSet,
    inference: NameSet,
    phony: NameSet,
    has_default: bool,
    wait_uses: u64,
}

impl Specials {
    /// What these entries say. The only error is out of memory.
    fn of_entries(
        alloc: Global,
        hasher: NameHasher,
        entries: &[Rule],
    ) -> Result<Specials, AllocError>
        ensures suffixes { IfOk result (λ s. s.suffixes.keys ≡ (book_of entries.now).suffixes) }
        ensures inference { IfOk result (λ s. s.inference.keys ≡ (book_of entries.now).inference) }
        ensures phony { IfOk result (λ s. s.phony.keys ≡ (book_of entries.now).phony) }
        ensures has_default { IfOk result (λ s. s.has_default ≡ (book_of entries.now).has_default) }
        ensures wait_uses { IfOk result (λ s. s.wait_uses ≡ (book_of entries.now).wait_uses) }
        ensures all { IfOk result (λ s. All (λ name. is_suffix name ≡ true) s.suffixes.keys) }
    {
        let suffixes = suffixes(alloc, hasher, entries)?;
        let inference = inference(alloc, hasher, &suffixes, entries)?;
        let phony = phony(alloc, hasher, entries)?;
        Ok(Specials {
            suffixes,
            inference,
            phony,
            has_default: has_default(entries),
            wait_uses: wait_uses(entries),
        })
    }
}

/// What the makefiles say of each name: the target rules in their order, with an index from each target to
/// its rules, and what the special targets and the inference rules say.
#[derive(Debug)]
pub struct Rulebook {
    rules: Vec<Rule>,
    targets: NameSet,
    places: Vec<Vec<usize>>,
    specials: Specials,
}

// By hand, so that it is proved once (docs/GATE.md, "What costs the prover").
impl Drop for Rulebook {
    fn drop(self) {
        let Rulebook {
            rules: _,
            targets: _,
            places: _,
            specials: _,
        } = self;
    }
}

impl Model for Rulebook {
    ghost use Rattle.std.specs.Prelude.{map};
    ghost use Rattle.mk_rules.specs.Book.{Book};
    ghost use Rattle.mk_rules.specs.Index.{IsBook};

    ghost Value = { Book };

    ghost view = { λ a. record {
      rules = a.rules.items;
      suffixes = a.specials.suffixes.keys;
      inference = a.specials.inference.keys;
      phony = a.specials.phony.keys;
      has_default = a.specials.has_default;
      wait_uses = a.specials.wait_uses;
    } };

    ghost invariant = { λ a.
        IsBook a.rules.items a.targets.keys (map (λ row. row.items) a.places.items) a.specials.suffixes.keys };
}

impl Rulebook {
    /// The book of these entries, in their order: what they say of target rules, inference rules and
    /// special targets ("Target Rules", "Inference Rules", "Special Targets"). The only error is out
    /// of memory.
    pub fn new(alloc: Global, entries: Vec<Rule>) -> Result<Rulebook, AllocError>
        ensures { IfOk result (λ book. book ≡ book_of entries.items) }
    {
        let hasher = hasher_of(&entries);
        let specials = Specials::of_entries(alloc, hasher, &entries)?;
        let rules = target_rules(alloc, &specials.suffixes, entries)?;
        Rulebook::of_rules(alloc, hasher, rules, specials)
    }

    /// The book of these target rules, and of what else the entries say. The only error is out of memory.
    fn of_rules(
        alloc: Global,
        hasher: NameHasher,
        rules: Vec<Rule>,
        specials: Specials,
    ) -> Result<Rulebook, AllocError>
        requires { All (λ s. is_suffix s ≡ true) specials.suffixes.keys }
        ensures { IfOk result (λ book. book ≡ record {
          rules = rules.items;
          suffixes = specials.suffixes.keys;
          inference = specials.inference.keys;
          phony = specials.phony.keys;
          has_default = specials.has_default;
          wait_uses = specials.wait_uses;
        }) }
    {
        let mut targets = IndexSet::with_hasher(alloc, hasher);
        let mut places = Vec::new(alloc);
        for (place, rule) in rules.iter().enumerate() {
            note_entry(alloc, &mut targets, &mut places, rule.targets(), place)?;
        }
        Ok(Rulebook {
            rules,
            targets,
            places,
            specials,
        })
    }

    /// An empty set for names of this book. Its hasher is that of the book's own tables, whose key is the digest of all names
    /// of the entries.
    pub fn empty_set(&self, alloc: Global) -> NameSet
        ensures { result.keys ≡ [] }
    {
        IndexSet::with_hasher(alloc, *self.targets.hasher())
    }

    /// The places of the target rules that name it as a target, rising; none for a name that is no
    /// target.
    pub fn rules_of(&self, name: &Name) -> &[usize]
        ensures places { result.now ≡ places_of self.now.rules name.now }
        ensures within { All (λ place. place < length self.now.rules) result.now }
    {
        match self.targets.get_index_of(name) {
            Some(number) => self.places[number].as_slice(),
            None => &[],
        }
    }

    /// How many target rules there are.
    pub fn rule_count(&self) -> usize
        ensures { result ≡ length self.now.rules }
    {
        self.rules.len()
    }

    /// How many targets the target rules have, each name once.
    pub fn target_count(&self) -> usize
        ensures { result ≡ length (targets_of self.now.rules) }
    {
        self.targets.len()
    }

    /// Whether it is a target of a target rule.
    pub fn is_target(&self, name: &Name) -> bool
        ensures { result ≡ is_target self.now.rules name.now }
    {
        self.targets.contains(name)
    }

    /// The target with this number, in first-seen order.
    pub fn target(&self, number: usize) -> Option<&Name>
        ensures { option_copied result ≡ slice_get (targets_of self.now.rules) number }
    {
        self.targets.get_index(number)
    }

    /// The first of some places at which the target rule has commands.
    pub fn recipe_among(&self, places: &[usize]) -> Option<usize>
        requires { All (λ place. place < length self.now.rules) places.now }
        ensures { result ≡ find (commands_at self.now.rules) places.now }
    {
        for place in places {
            if self.rules[*place].has_commands() {
                return Some(*place);
            }
        }
        None
    }

    /// The place of the first target rule that gives the target commands.
    pub fn recipe_place(&self, name: &Name) -> Option<usize>
        ensures { result ≡ recipe_place self.now.rules name.now }
    {
        self.recipe_among(self.rules_of(name))
    }

    /// The prerequisites of the rule at a place, as its line gives them, without `.WAIT`.
    pub fn rule_prerequisites(&self, place: usize) -> &[Name]
        requires { place < length self.now.rules }
        ensures { slice_get (map (λ e. e.prerequisites) self.now.rules) place ≡ Some result.now }
    {
        self.rules[place].prerequisites()
    }

    /// The text where the rule at a place stands.
    pub fn rule_source(&self, place: usize) -> &Source
        requires { place < length self.now.rules }
        ensures { slice_get (map (λ e. e.source) self.now.rules) place ≡ Some result.now }
    {
        self.rules[place].source()
    }

    /// The line where the rule at a place stands.
    pub fn rule_line(&self, place: usize) -> u64
        requires { place < length self.now.rules }
        ensures { slice_get (map (λ e. e.line) self.now.rules) place ≡ Some result }
    {
        self.rules[place].line()
    }

    /// The prerequisites of a name: those of all its target rules, joined in their order, without repeats
    /// ("Target Rules"). The only error is out of memory.
    pub fn prerequisites(&self, alloc: Global, name: &Name) -> Result<Vec<Name>, Halt>
        ensures joined { IfOk result (λ names. names.items ≡ prerequisites_of self.now.rules name.now) }
        ensures only_memory { IfErr result (λ halt. halt ≡ Memory) }
    {
        let mut joined = self.empty_set(alloc);
        for place in self.rules_of(name) {
            join(alloc, &mut joined, self.rule_prerequisites(*place))?;
        }
        Ok(into_names(alloc, joined)?)
    }

    /// The place of the first target rule that gives commands to a target that an earlier one gave some,
    /// with the first such target of it ("Target Rules": at most one has commands).
    pub fn second_recipe(&self) -> Option<(usize, &Name)>
        ensures { option_map (λ found. (found.0, found.1.now)) result ≡ second_recipe self.now.rules }
    {
        for (place, rule) in self.rules.iter().enumerate() {
            if let Some(name) = self.second_target(rule, place) {
                return Some((place, name));
            }
        }
        None
    }

    /// The first target of the rule at a place to which it gives commands, and an entry before it too.
    fn second_target<'a>(&self, rule: &'a Rule, place: usize) -> Option<&'a Name>
        ensures { option_copied result ≡ second_target self.now.rules (place, rule.now) }
    {
        if !rule.has_commands() {
            return None;
        }
        self.first_with_recipe(rule.targets(), place)
    }

    /// The first of the names to which an entry before the place gives commands.
    fn first_with_recipe<'a>(&self, names: &'a [Name], place: usize) -> Option<&'a Name>
        ensures { option_copied result ≡ find (has_recipe (take place self.now.rules)) names.now }
    {
        names
            .iter()
            .find(|name| self.has_recipe_before(name, place))
    }

    /// Whether an entry before the place gives the name commands.
    fn has_recipe_before(&self, name: &Name, place: usize) -> bool
        ensures { result ≡ has_recipe (take place self.now.rules) name.now }
    {
        match self.recipe_place(name) {
            Some(first) => first < place,
            None => false,
        }
    }

    /// The goal where none is named: the first target whose first byte is no period, or in which a
    /// slash stands ("Target Rules").
    pub fn default_goal(&self) -> Option<&Name>
        ensures { option_copied result ≡ default_goal self.now.rules }
    {
        self.targets
            .as_slice()
            .iter()
            .find(|name| may_be_goal(name))
    }

    /// Whether the name is phony: a prerequisite of `.PHONY` ("Special Targets").
    pub fn is_phony(&self, name: &Name) -> bool
        ensures { result ≡ is_phony self.now name.now }
    {
        self.specials.phony.contains(name)
    }

    /// Whether it is the name of an inference rule ("Inference Rules").
    pub fn has_inference(&self, name: &Name) -> bool
        ensures { result ≡ has_inference self.now name.now }
    {
        self.specials.inference.contains(name)
    }

    /// The names of the inference rules, in first-seen order ("Inference Rules").
    pub fn inference_rules(&self) -> &[Name]
        ensures { result.now ≡ self.now.inference }
    {
        self.specials.inference.as_slice()
    }

    /// The place of a suffix in the list that `.SUFFIXES` makes, from 0.
    pub fn suffix_place(&self, name: &Name) -> Option<usize>
        ensures { result ≡ position (same_name name.now) self.now.suffixes }
    {
        self.specials.suffixes.get_index_of(name)
    }

    /// The list of suffixes that `.SUFFIXES` makes, as it stands in the end. Each is a period with something behind it
    /// in which no other period and no slash stands.
    pub fn suffixes(&self) -> &[Name]
        ensures list { result.now ≡ self.now.suffixes }
        ensures each { All (λ s. is_suffix s ≡ true) self.now.suffixes }
    {
        self.specials.suffixes.as_slice()
    }

    /// Whether `.DEFAULT` has commands ("Special Targets").
    pub fn has_default(&self) -> bool
        ensures { result ≡ self.now.has_default }
    {
        self.specials.has_default
    }

    /// How often entries with targets name `.WAIT` as a prerequisite; what would pass the greatest
    /// count stays there.
    pub fn wait_uses(&self) -> u64
        ensures { result ≡ self.now.wait_uses }
    {
        self.specials.wait_uses
    }
}

/// Whether the name may be the default goal.
pub(crate) fn may_be_goal(name: &Name) -> bool
    ensures { result ≡ may_be_goal name.now }
{
    !name.as_bytes().starts_with(b".") || name.as_bytes().contains(&b'/')
}
