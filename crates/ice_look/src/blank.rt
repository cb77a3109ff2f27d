//! A name for entries to be read into.
use tree_spec::Name;

/// A name to read others into.
#[tactic(auto, unfolding(tree_spec::specs::Names::is_name))]
pub(crate) fn blank_name() -> Name {
    match Name::new(b"-") {
        Some(name) => name,
        None => unreachable!(),
    }
}
