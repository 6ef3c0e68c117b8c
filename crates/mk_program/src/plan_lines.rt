//! The text of a plan.
ghost use Rattle.std.specs.Prelude.{◌≡◌, ◌<◌, ◌++◌, IfOk, IsTrue, nat_eq, ℕ, IfSome, OnOk, length, slice_get};
ghost use Rattle.mk_name.specs.Names.{has};
ghost use Rattle.mk_program.specs.PlanText as spec;

use mk_jobs::maker::Maker;
use mk_jobs::plan::Plan;
use mk_name::report::push_shown;
use std::alloc::{AllocError, Global};

/// The text of a plan (profile): for each node in its order its number, what makes it, its name, and behind a colon the
/// names of its prerequisites, where it has any. The only error is out of memory.
pub fn plan_text(alloc: Global, plan: &Plan) -> Result<Vec<u8>, AllocError>
    ensures { IfOk result (λ text. text.items ≡ spec.plan_text plan.now) }
{
    let mut out = Vec::new(alloc);
    for number in 0..plan.count() {
        push_node(&mut out, alloc, plan, number)?;
    }
    Ok(out)
}

fn push_node(out: &mut Vec<u8>, alloc: Global, plan: &Plan, number: u32) -> Result<(), AllocError>
    requires { number < length plan.now.nodes }
    ensures { OnOk result (IfSome (slice_get plan.now.nodes number) (λ node.
        out.new.items ≡ out.old.items ++ spec.node_line plan.now.nodes number node)) }
{
    let kind = kind_word(plan.maker(number));
    let head = format!(in alloc; "{number} {kind} ")?;
    out.extend_from_slice(head.as_bytes())?;
    push_shown(out, plan.name(number).as_bytes())?;
    push_needs(out, plan, plan.prerequisites(number))?;
    out.push(b'\n')?;
    Ok(())
}

fn kind_word(maker: Maker) -> &'static str
    ensures { result.now ≡ spec.kind_word maker }
{
    match maker {
        Maker::Rule => "recipe",
        Maker::Inferred => "inferred",
        Maker::Default => "default",
        Maker::Nothing => "plain",
    }
}

fn push_needs(out: &mut Vec<u8>, plan: &Plan, needs: &[u32]) -> Result<(), AllocError>
    requires { (n : ℕ) → IsTrue (has nat_eq needs.now n) → n < length plan.now.nodes }
    ensures { OnOk result (out.new.items ≡ out.old.items ++ spec.needs plan.now.nodes needs.now) }
{
    if needs.is_empty() {
        return Ok(());
    }
    out.extend_from_slice(b" :")?;
    for number in needs {
        out.push(b' ')?;
        push_shown(out, plan.name(*number).as_bytes())?;
    }
    Ok(())
}
