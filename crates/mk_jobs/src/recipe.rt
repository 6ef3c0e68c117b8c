//! Which nodes have a recipe, and which of these can run.
ghost use Rattle.std.specs.Prelude.{◌≡◌, ◌<◌, length};
ghost use Rattle.mk_jobs.specs.Plan.{node_at};
ghost use Rattle.mk_jobs.specs.Jobs.{has_commands};
ghost use Rattle.mk_jobs.specs.Recipes.{is_live_node};

use crate::maker::Maker;
use crate::plan::Plan;

/// Whether a node of this maker has a recipe (profile): each has one but the maker `Nothing`.
pub fn has_recipe(maker: Maker) -> bool
    ensures { result ≡ has_commands maker }
{
    match maker {
        Maker::Rule | Maker::Inferred | Maker::Default => true,
        Maker::Nothing => false,
    }
}

/// Whether a node has a recipe that can run. Its number must be below the count of nodes.
pub fn is_live(plan: &Plan, n: u32) -> bool
    requires { n < length plan.now.nodes }
    ensures { result ≡ is_live_node (node_at plan.now.nodes n) }
{
    let needs_nothing = plan.prerequisites(n).is_empty();
    let idle = plan.is_listed(n) && !plan.is_phony(n) && needs_nothing;
    has_recipe(plan.maker(n)) && !idle
}
