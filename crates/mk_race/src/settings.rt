//! What the operands of the command line say: goals, and macros.
ghost use Rattle.std.specs.Prelude.{◌≡◌, ◌++◌, Err, IfErr, IfOk, Ok, OnOk, false, map};
ghost use Rattle.std.specs.List.{All};
ghost use Rattle.std.specs.Option.{option_to_list};
ghost use Rattle.mk_macro.specs.Macros.{macros_of};
ghost use Rattle.mk_macro.specs.Operands.{is_bad, operand_macros};
ghost use Rattle.mk_name.specs.Gives.{Halts};
ghost use Rattle.mk_race.specs.Settings as spec;

use mk_macro::macros::Macros;
use mk_name::fault::{Fault, Halt, Source};
use mk_name::name::Name;
use mk_text::root::Root;
use mk_text::spelling::plain_word;
use std::alloc::{AllocError, Global};

/// What the operands of the command line say.
#[derive(Debug, Drop)]
pub struct Operands {
    /// The names of the goals, in their order.
    pub goals: Vec<Name>,
    /// What each macro stands for before any line is read.
    pub macros: Macros,
}

impl Operands {
    /// Reads the operands: those that hold a `=` define macros, and the others name goals. A fault is reported in the settings,
    /// at the operand's place from 1: `BadName` of a goal that no word spells, with the word, and `BadAssignment` of a macro's
    /// name. The first from the left is answered. The only other error is out of memory.
    pub fn read(alloc: Global, operands: &[&[u8]], root: &Root) -> Result<Operands, Halt>
        ensures goals { IfOk result (λ read.
            spec.goals_of root.now (map (λ operand. operand.now) operands.now) ≡ Ok read.goals.items) }
        ensures macros { IfOk result (λ read.
            operand_macros (map (λ operand. operand.now) operands.now) ≡ Ok (macros_of read.macros)) }
        ensures fault { IfErr result (λ halt.
            Halts halt (spec.goals_of root.now (map (λ operand. operand.now) operands.now))) }
    {
        match Macros::new(alloc, operands) {
            Ok(macros) => {
                let goals = goals_among(alloc, operands, root)?;
                Ok(Operands { goals, macros })
            }
            Err(Halt::Fault(fault)) => Err(first_halt(alloc, operands, root, fault)),
            Err(Halt::Memory) => Err(Halt::Memory),
        }
    }
}

/// The first halt of operands of which one has this fault as a definition: that of a goal to its left, or else this fault.
fn first_halt(alloc: Global, operands: &[&[u8]], root: &Root, fault: Fault) -> Halt
    requires { operand_macros (map (λ operand. operand.now) operands.now) ≡ Err fault }
    ensures { Halts result (spec.goals_of root.now (map (λ operand. operand.now) operands.now)) }
{
    let bad = fault.place() as usize - 1;
    match goals_among(alloc, &operands[..bad], root) {
        Ok(_goals) => Halt::Fault(fault),
        Err(halt) => halt,
    }
}

/// The names of the goals among operands that define no macro, or define it well.
fn goals_among(alloc: Global, operands: &[&[u8]], root: &Root) -> Result<Vec<Name>, Halt>
    requires { All (λ operand. is_bad operand.now ≡ false) operands.now }
    ensures names { IfOk result (λ goals.
        spec.goals_of root.now (map (λ operand. operand.now) operands.now) ≡ Ok goals.items) }
    ensures fault { IfErr result (λ halt.
        Halts halt (spec.goals_of root.now (map (λ operand. operand.now) operands.now))) }
{
    let mut goals = Vec::new(alloc);
    for (number, operand) in operands.iter().enumerate() {
        let goal = goal_at(alloc, operand, number as u64 + 1, root)?;
        add_goal(&mut goals, goal)?;
    }
    Ok(goals)
}

/// Adds a goal, where there is one.
fn add_goal(goals: &mut Vec<Name>, goal: Option<Name>) -> Result<(), AllocError>
    ensures { OnOk result (goals.new.items ≡ goals.old.items ++ option_to_list goal) }
{
    if let Some(goal) = goal {
        goals.push(goal)?;
    }
    Ok(())
}

/// The goal that the operand at a place names, if it names one.
fn goal_at(alloc: Global, operand: &[u8], place: u64, root: &Root) -> Result<Option<Name>, Halt>
    requires { is_bad operand.now ≡ false }
    ensures { spec.GivesGoal result (spec.goals_at root.now (place, operand.now)) }
{
    match goal_in(alloc, operand, root) {
        Err(Halt::Fault(fault)) => Err(Halt::Fault(fault.at(Source::Settings, place))),
        given => given,
    }
}

/// The goal that an operand names, if it names one.
fn goal_in(alloc: Global, operand: &[u8], root: &Root) -> Result<Option<Name>, Halt>
    requires { is_bad operand.now ≡ false }
    ensures { spec.GivesGoal result (spec.goals_in root.now operand.now) }
{
    if operand.contains(&b'=') {
        return Ok(None);
    }
    Ok(Some(plain_word(alloc, operand, root)?))
}
