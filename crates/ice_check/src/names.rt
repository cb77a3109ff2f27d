//! Names in a fixed array.
ghost use Rattle.std.specs.Prelude.{◌≡◌, ◌≢◌, ◌≤◌, true, false, length};
ghost use Rattle.tree_spec.specs.Trees.{by_bytes};
ghost use Rattle.ice_check.specs.Names.{kept_name, array_names, AllDiffer, TwoAlike};

use std::cmp::Ordering;
use tree_spec::Name;

/// A name in an array: the first `len` of the bytes.
#[derive(Clone, Copy, Drop)]
pub struct Kept {
    pub bytes: [u8; 123],
    pub len: usize,
}

/// An array of no names.
pub fn no_names<const N: usize>() -> [Kept; N]
    ensures { length result ≡ N }
{
    [Kept {
        bytes: [0; 123],
        len: 0,
    }; N]
}

fn name_bytes(kept: &Kept) -> &[u8]
    ensures { result.now ≡ kept_name kept.now }
{
    &kept.bytes[..kept.len.min(123)]
}

/// A name as one of an array.
pub fn keep(name: &Name) -> Kept
    ensures { kept_name result ≡ name.now }
{
    let from = name.bytes();
    let mut bytes = [0; 123];
    bytes[..from.len()].copy_from_slice(from);
    Kept {
        bytes,
        len: from.len(),
    }
}

fn compare(a: &Kept, b: &Kept) -> Ordering
    ensures { result ≡ by_bytes (kept_name a.now) (kept_name b.now) }
{
    name_bytes(a).cmp(name_bytes(b))
}

fn are_same(a: &Kept, b: &Kept) -> bool
    ensures yes { result ≡ true → kept_name a.now ≡ kept_name b.now }
    ensures no { result ≡ false → kept_name a.now ≢ kept_name b.now }
{
    *name_bytes(a) == *name_bytes(b)
}

/// Whether no name stands in the array twice. It puts the names in order.
pub fn names_differ(names: &mut [Kept]) -> bool
    ensures long { length names.new ≡ length names.old }
    ensures yes { result ≡ true → AllDiffer (array_names names.old) }
    ensures no { result ≡ false → TwoAlike (array_names names.old) }
{
    names.sort_unstable_by(|a, b| compare(a, b));
    for k in 1..names.len() {
        if are_same(&names[k - 1], &names[k]) {
            return false;
        }
    }
    true
}
