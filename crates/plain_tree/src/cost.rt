//! What files and directories cost.
ghost use Rattle.std.specs.Prelude.{◌≡◌, ◌<◌};
ghost use Rattle.tree_spec.specs.Costs.{map_cost};

/// What a version of a cube's format fixes.
#[derive(Clone, Copy, Debug, PartialEq, Eq)]
pub struct PlainForm {
    pub longest_file: usize,
    pub longest_name: usize,
    pub entries_per_block: usize,
}

pub fn form_one() -> PlainForm {
    PlainForm {
        longest_file: 274_432,
        longest_name: 59,
        entries_per_block: 16,
    }
}

pub fn form_two() -> PlainForm {
    PlainForm {
        longest_file: 67_383_296,
        longest_name: 123,
        entries_per_block: 8,
    }
}

/// The blocks of a map of so many data blocks.
pub fn map_cost(blocks: u32) -> u64
    ensures { result ≡ map_cost blocks }
{
    let blocks = u64::from(blocks);
    if blocks <= 12 {
        blocks
    } else if blocks <= 268 {
        blocks + 1
    } else {
        blocks + 2 + (blocks - 268 + 255) / 256
    }
}

/// The blocks of a map over so many parts, of which a block holds `per_block`.
pub fn cost_of(parts: usize, per_block: usize) -> u64 {
    if per_block == 0 {
        return 0;
    }
    match u32::try_from(parts.div_ceil(per_block)) {
        Ok(blocks) => map_cost(blocks),
        Err(_) => u64::MAX,
    }
}
