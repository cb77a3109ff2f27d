//! Refusals that the names of paths show by themselves.
ghost use Rattle.std.specs.Prelude.{◌≡◌, ◌≤◌, ◌⊎◌, length, drop, nat_lt, [], ◌∷◌, IfErr};
ghost use Rattle.std.specs.List.{list_any};
ghost use Rattle.tree_spec.specs.Answers.{deepest};
ghost use Rattle.tree_spec.specs.Costs.{form_of};
ghost use Rattle.tree_spec.specs.declared.reply.Refusal.TheVariants.{NameLong, TooDeep};
ghost use Rattle.ice_look.specs.Stages.{paths_refusal};
ghost use Rattle.ice_look.specs.Calls.{RefusedBy};

use ice_base::Form;
use tree_spec::{Path, Refusal};

/// The most names of a path below the root.
pub const DEEPEST: usize = 24;

/// Whether one of the names from `depth` on is longer than the form's longest name.
pub(crate) fn has_long_name<F: Form>(path: &Path, depth: usize) -> bool
    requires { depth ≤ length path.now }
    ensures { result ≡ list_any (λ c. nat_lt (form_of F.VERSION).longest_name (length c))
        (drop depth path.now) }
{
    for k in depth..path.len() {
        let name = path.name(k);
        if name.bytes().len() > F::NAME as usize {
            return true;
        }
    }
    false
}

/// Whether there are more names from `depth` on than a tree is deep.
pub(crate) fn is_deep(path: &Path, depth: usize) -> bool
    requires { depth ≤ length path.now }
    ensures { result ≡ nat_lt deepest (length (drop depth path.now)) }
{
    path.len() - depth > DEEPEST
}

/// Refuses a path by its names: NameLong, then TooDeep.
pub fn check_path<F: Form>(path: &Path, depth: usize) -> Result<(), Refusal>
    requires { depth ≤ length path.now }
    ensures refusal { RefusedBy (paths_refusal (form_of F.VERSION) (drop depth path.now ∷ []))
        result }
    ensures set { IfErr result (λ r. (r ≡ NameLong) ⊎ (r ≡ TooDeep)) }
{
    if has_long_name::<F>(path, depth) {
        return Err(Refusal::NameLong);
    }
    if is_deep(path, depth) {
        return Err(Refusal::TooDeep);
    }
    Ok(())
}

/// Refuses two paths by their names: NameLong of either, then TooDeep of either.
pub fn check_paths<F: Form>(path: &Path, to: &Path, depth: usize) -> Result<(), Refusal>
    requires path { depth ≤ length path.now }
    requires to { depth ≤ length to.now }
    ensures refusal { RefusedBy (paths_refusal (form_of F.VERSION)
        (drop depth path.now ∷ drop depth to.now ∷ [])) result }
    ensures set { IfErr result (λ r. (r ≡ NameLong) ⊎ (r ≡ TooDeep)) }
{
    if has_long_name::<F>(path, depth) || has_long_name::<F>(to, depth) {
        return Err(Refusal::NameLong);
    }
    if is_deep(path, depth) || is_deep(to, depth) {
        return Err(Refusal::TooDeep);
    }
    Ok(())
}
