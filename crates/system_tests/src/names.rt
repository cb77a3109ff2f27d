//! The cube table by worked bytes.
use crate::tables::{At, table};
use ice_base::Block;
use ice_names::{Mark, Names};
use ice_path::read_path;
use std::process::Abort;
use std::test::Fail;

/// A row by its mark, the length of its text, and the text.
type Row = (u8, u8, &'static [u8]);

const FREE: Row = (0, 0, b"");

const ONE: Row = (1, 2, b"/a");

/// The bytes of a row: mark, length of the text, six bytes that are not looked at, and the text.
fn bytes_of(row: &Row) -> [u8; 256] {
    let mut bytes = [0; 256];
    bytes[0] = row.0;
    bytes[1] = row.1;
    bytes[2] = 7;
    for (i, byte) in row.2.iter().enumerate() {
        if i < 248 {
            bytes[8 + i] = *byte;
        }
    }
    bytes
}

/// A path of two names of 99 letters.
const LONG: &[u8] =
    b"/aaaaaaaaaaaaaaaaaaaaaaaaaaaaaaaaaaaaaaaaaaaaaaaaaaaaaaaaaaaaaaaaaaaaaaaaaaaaaaaaaaaaaaaaaaaaaaaaaaa\
/aaaaaaaaaaaaaaaaaaaaaaaaaaaaaaaaaaaaaaaaaaaaaaaaaaaaaaaaaaaaaaaaaaaaaaaaaaaaaaaaaaaaaaaaaaaaaaaaaaa";

fn read(blocks: &[Block; 4], slots: u8) -> Option<Names> {
    if slots < 1 || slots > 16 {
        return None;
    }
    Names::read(blocks, slots)
}

/// Two rows, the second at this place of this block, for an image of so many slots, and whether that is a table.
const TABLES: [(&str, u8, Row, Row, (usize, usize), bool); 17] = [
    ("free rows", 2, FREE, FREE, (0, 256), true),
    (
        "only the mark of a free row is looked at",
        2,
        (0, 9, b"x"),
        FREE,
        (0, 256),
        true,
    ),
    (
        "two cubes, one offline",
        2,
        ONE,
        (2, 2, b"/b"),
        (0, 256),
        true,
    ),
    ("a cube at the root", 2, (1, 1, b"/"), ONE, (0, 256), true),
    ("text of 199 bytes", 2, (1, 199, LONG), ONE, (0, 256), true),
    (
        "what is behind the text is not looked at",
        2,
        (1, 2, b"/abc"),
        FREE,
        (0, 256),
        true,
    ),
    ("mark 3", 2, (3, 2, b"/a"), FREE, (0, 256), false),
    ("no text", 2, (1, 0, b""), FREE, (0, 256), false),
    (
        "text of 200 bytes",
        2,
        (1, 200, LONG),
        FREE,
        (0, 256),
        false,
    ),
    ("no slash in front", 2, (1, 1, b"a"), FREE, (0, 256), false),
    (
        "a slash at the end",
        2,
        (1, 3, b"/a/"),
        FREE,
        (0, 256),
        false,
    ),
    (
        "an offline cube without a path",
        2,
        (2, 2, b"//"),
        FREE,
        (0, 256),
        false,
    ),
    ("two equal paths", 2, ONE, ONE, (0, 256), false),
    (
        "equal paths in two blocks, one offline",
        16,
        ONE,
        (2, 2, b"/a"),
        (3, 768),
        false,
    ),
    (
        "a cube past the slots",
        2,
        ONE,
        (1, 2, b"/b"),
        (0, 512),
        false,
    ),
    (
        "a cube in the last of 16 slots",
        16,
        ONE,
        (1, 2, b"/b"),
        (3, 768),
        true,
    ),
    (
        "the same in an image of 15",
        15,
        ONE,
        (1, 2, b"/b"),
        (3, 768),
        false,
    ),
];

/// Whether these are a table: a row at the begin of the blocks, and one at this place of this block.
fn are_read(slots: u8, first: &Row, second: &Row, (block, place): (usize, usize)) -> bool {
    let blocks = table(&[
        At {
            block: 0,
            place: 0,
            bytes: &bytes_of(first),
        },
        At {
            block,
            place,
            bytes: &bytes_of(second),
        },
    ]);
    read(&blocks, slots).is_some()
}

#[test]
fn each_fault_of_the_cube_table_is_refused(rt: HostRuntime) {
    for (name, slots, first, second, at, want) in &TABLES {
        let found = are_read(*slots, first, second, *at);
        assert!(rt; found == *want, "{name}");
    }
}

/// The cubes `/home` in slot 1 and `/z` in slot 15, the latter offline.
fn worked() -> [Block; 4] {
    table(&[
        At {
            block: 0,
            place: 256,
            bytes: &bytes_of(&(1, 5, b"/home")),
        },
        At {
            block: 3,
            place: 768,
            bytes: &bytes_of(&(2, 2, b"/z")),
        },
    ])
}

/// What is written of them: what is not looked at is zero.
fn worked_bytes() -> [Block; 4] {
    table(&[
        At {
            block: 0,
            place: 256,
            bytes: &[1, 5, 0, 0, 0, 0, 0, 0, 0x2f, 0x68, 0x6f, 0x6d, 0x65],
        },
        At {
            block: 3,
            place: 768,
            bytes: &[2, 2, 0, 0, 0, 0, 0, 0, 0x2f, 0x7a],
        },
    ])
}

/// What is written of the table that these blocks are.
fn written(blocks: &[Block; 4]) -> Option<[Block; 4]> {
    let names = read(blocks, 16)?;
    let mut into = [[0xee; 1024]; 4];
    names.write(&mut into);
    Some(into)
}

fn find(names: &Names, text: &[u8]) -> Result<Option<u8>, Fail> {
    let path = read_path(text).ok().ok_or("no path")?;
    Ok(names.find(&path))
}

fn route(names: &Names, text: &[u8]) -> Result<Option<(u8, usize)>, Fail> {
    let path = read_path(text).ok().ok_or("no path")?;
    Ok(names.route(&path))
}

/// The mark of a slot, where the table has it.
fn mark(names: &Names, slot: u8) -> Option<Mark> {
    if slot >= names.slots() {
        return None;
    }
    Some(names.mark(slot))
}

#[test]
fn what_is_written_are_the_worked_bytes(rt: HostRuntime) -> Result<(), Fail> {
    let into = written(&worked()).ok_or("no table")?;
    assert!(rt; into == worked_bytes());
    Ok(())
}

fn look_at_worked(rt: &impl Abort, names: &Names) -> Result<(), Fail> {
    assert_eq!(rt; (names.slots(), names.free_slot()), (16, Some(0)));
    assert_eq!(rt; find(names, b"/home")?, Some(1));
    let routes = (route(names, b"/home/letters")?, route(names, b"/homes")?);
    assert_eq!(rt; routes, (Some((1, 1)), None));
    let marks = [mark(names, 1), mark(names, 15), mark(names, 2)];
    assert_eq!(rt;
        marks,
        [Some(Mark::Online), Some(Mark::Offline), Some(Mark::Free)]
    );
    Ok(())
}

#[test]
fn the_worked_cubes_are_found(rt: HostRuntime) -> Result<(), Fail> {
    let mut names = read(&worked(), 16).ok_or("no table")?;
    look_at_worked(&rt, &names)?;
    assert!(rt; names.slots() == 16);
    names.clear_row(1);
    assert_eq!(rt; find(&names, b"/home")?, None);
    Ok(())
}

/// A cube in each of the 16 slots, `/a` to `/p`.
fn full() -> [Block; 4] {
    let mut blocks = [[0; 1024]; 4];
    for slot in 0..16_u8 {
        let place = 256 * (slot as usize % 4);
        blocks[slot as usize / 4][place] = 1;
        blocks[slot as usize / 4][place + 1] = 2;
        blocks[slot as usize / 4][place + 8] = b'/';
        blocks[slot as usize / 4][place + 9] = b'a' + slot;
    }
    blocks
}

const TEXTS: [(&[u8], u8); 3] = [(b"/a", 0), (b"/p", 15), (b"/h", 7)];

#[test]
fn sixteen_cubes_fill_the_table(rt: HostRuntime) -> Result<(), Fail> {
    let names = read(&full(), 16).ok_or("no table")?;
    assert_eq!(rt; names.free_slot(), None);
    for (text, slot) in &TEXTS {
        assert_eq!(rt; find(&names, text)?, Some(*slot));
    }
    let into = written(&full()).ok_or("no table")?;
    assert!(rt; into == full());
    Ok(())
}
