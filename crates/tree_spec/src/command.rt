//! What a line asks for.
use crate::path::Path;

/// A command of a line. The bytes of a `Write` are lent by the reader of the line.
#[derive(Drop)]
pub enum Command<'a> {
    Create {
        path: Path,
        groups: u32,
    },
    Delete {
        path: Path,
    },
    Grow {
        path: Path,
        groups: u32,
    },
    Offline {
        path: Path,
    },
    Online {
        path: Path,
    },
    Cubes,
    Mount {
        path: Path,
    },
    Unmount {
        path: Path,
    },
    Check {
        path: Path,
    },
    Mkdir {
        path: Path,
    },
    Make {
        path: Path,
    },
    Write {
        path: Path,
        at: u32,
        bytes: &'a [u8],
    },
    Read {
        path: Path,
        at: u32,
        len: u32,
    },
    Trunc {
        path: Path,
        len: u32,
    },
    Remove {
        path: Path,
    },
    Rename {
        path: Path,
        to: Path,
    },
    List {
        path: Path,
    },
    Stat {
        path: Path,
    },
    Sync {
        path: Path,
    },
}
