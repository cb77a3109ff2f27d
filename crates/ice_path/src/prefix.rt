//! Prefixes by whole names.
ghost use Rattle.std.specs.Prelude.{◌≡◌, ◌≤◌, ◌<◌, ◌⊎◌, ◌+◌, ◌-◌, ℕ, List, false, length, take, drop, get_or};
ghost use Rattle.tree_spec.specs.Routes.{is_prefix, is_same_name};

use tree_spec::Path;

fn same_name(short: &Path, long: &Path, i: usize) -> bool
    requires in_short { i < length short.now }
    requires in_long { i < length long.now }
    ensures { (d : List ℕ) → result ≡ is_same_name (get_or short.now i d) (get_or long.now i d) }
{
    let a = short.name(i);
    let b = long.name(i);
    a.bytes() == b.bytes()
}

/// Whether the names of the first path from `depth` on begin those of the second. Names are compared
/// whole: `/a` does not begin `/ab`.
pub fn begins(path: &Path, to: &Path, depth: usize) -> bool
    requires path { depth ≤ length path.now }
    requires to { depth ≤ length to.now }
    ensures { result ≡ is_prefix (drop depth path.now) (drop depth to.now) }
{
    if path.len() > to.len() {
        return false;
    }
    for i in depth..path.len() {
        if !same_name(path, to, i) {
            return false;
        }
    }
    true
}

/// Whether the names of the first path begin the second. Names are compared whole: `/a` is no prefix of `/ab`.
pub fn is_prefix(short: &Path, long: &Path) -> bool
    ensures { result ≡ is_prefix short.now long.now }
{
    begins(short, long, 0)
}

/// Up to which name two paths go the same way from `depth` on, the last name of either left out.
pub fn parting(path: &Path, to: &Path, depth: usize) -> usize
    requires path { depth ≤ length path.now }
    requires to { depth ≤ length to.now }
    // Both have the names up to there, and each has one behind them, unless there are none.
    ensures from { depth ≤ result }
    ensures before { (result ≡ depth) ⊎ (result < length path.now) }
    ensures before_to { (result ≡ depth) ⊎ (result < length to.now) }
    ensures same { take (result - depth) (drop depth path.now) ≡ take (result - depth) (drop depth to.now) }
    // There the names differ, where neither is the last one.
    ensures most { (d : List ℕ) → result + 1 < length path.now → result + 1 < length to.now
        → is_same_name (get_or path.now result d) (get_or to.now result d) ≡ false }
{
    let shorter = path.len().min(to.len());
    if shorter == depth {
        return depth;
    }
    for k in depth..shorter - 1 {
        if !same_name(path, to, k) {
            return k;
        }
    }
    shorter - 1
}
