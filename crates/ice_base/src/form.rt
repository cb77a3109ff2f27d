//! What the versions of a cube differ in.
ghost use Rattle.std.specs.Prelude.{◌≡◌, ℕ, Bool, false, refl};

/// What the versions of a cube differ in.
pub trait Form {
    /// The version's number.
    const VERSION: u32;

    /// The bytes of a directory entry.
    const ENTRY: u32;

    /// The most bytes of a name.
    const NAME: u32;

    /// Whether an inode has a double-indirect block.
    const DOUBLE: bool;

    ghost VERSION: { ℕ };

    ghost ENTRY: { ℕ };

    ghost NAME: { ℕ };

    ghost DOUBLE: { Bool };

    /// So far there is one version.
    ghost is_one: { (VERSION ≡ 1) × (ENTRY ≡ 64) × (NAME ≡ 59) × (DOUBLE ≡ false) };
}

/// Version 1.
#[derive(Clone, Copy, Drop)]
pub struct FormOne {}

impl Form for FormOne {
    const VERSION: u32 = 1;

    const ENTRY: u32 = 64;

    const NAME: u32 = 59;

    const DOUBLE: bool = false;

    ghost VERSION = { 1 };

    ghost ENTRY = { 64 };

    ghost NAME = { 59 };

    ghost DOUBLE = { false };

    ghost is_one = { (refl, refl, refl, refl) };
}
