//! Refusals, names, paths and the room for an answer.
use std::test::Fail;
use tree_spec::{CubeRow, Entry, Name, Path, Refusal, Room, StateWord};

#[test]
fn each_refusal_has_its_number(rt: HostRuntime) {
    let table = [
        (Refusal::NameLong, 1),
        (Refusal::TooDeep, 2),
        (Refusal::NotFound, 3),
        (Refusal::NotDir, 4),
        (Refusal::IsDir, 5),
        (Refusal::IsRoot, 6),
        (Refusal::Exists, 7),
        (Refusal::NotEmpty, 8),
        (Refusal::IntoItself, 9),
        (Refusal::BeyondEnd, 10),
        (Refusal::FileBig, 11),
        (Refusal::NoNodes, 12),
        (Refusal::NoSpace, 13),
        (Refusal::Spent, 14),
        (Refusal::Damaged(9), 15),
        (Refusal::Fault, 16),
        (Refusal::Memory, 17),
        (Refusal::Word, 18),
        (Refusal::Args, 19),
        (Refusal::Number, 20),
        (Refusal::Hex, 21),
        (Refusal::Long, 22),
        (Refusal::Path, 23),
        (Refusal::NoCube, 24),
        (Refusal::CrossCube, 25),
        (Refusal::Offline, 26),
        (Refusal::Stopped, 27),
        (Refusal::Unmounted, 28),
        (Refusal::Mounted, 29),
        (Refusal::State, 30),
        (Refusal::NoSlot, 31),
        (Refusal::CubeFull, 32),
        (Refusal::NoGroups, 33),
    ];
    for (refusal, number) in table {
        assert_eq!(rt; refusal.number(), number, "of {refusal:?}");
    }
}

#[test]
fn names_have_1_to_123_bytes(rt: HostRuntime) {
    let bytes = [b'n'; 130];
    for len in 0..130 {
        let is_name = Name::new(&bytes[..len]).is_some();
        assert_eq!(rt; is_name, len >= 1 && len <= 123, "at {len}");
    }
}

#[test]
fn names_have_the_bytes_of_names(rt: HostRuntime) {
    let table: [(&[u8], bool); 9] = [
        (b".", false),
        (b"..", false),
        (b"...", true),
        (b".a", true),
        (b"a/b", false),
        (b"a b", false),
        (b"!~", true),
        (b"a\x7f", false),
        (b"a\n", false),
    ];
    for (bytes, is_name) in table {
        assert_eq!(rt; Name::new(bytes).is_some(), is_name, "{bytes:?}");
    }
}

#[test]
fn paths_have_their_texts(rt: HostRuntime) -> Result<(), Fail> {
    let home = Name::new(b"home").ok_or("name")?;
    let ann = Name::new(b"ann").ok_or("name")?;
    let mut path = Path::root();
    assert_eq!(rt; path.text(), b"/".as_slice());
    assert!(rt; path.push(&home));
    assert!(rt; path.push(&ann));
    assert_eq!(rt; path.text(), b"/home/ann".as_slice());
    assert_eq!(rt; path.len(), 2);
    assert_eq!(rt; path.name(1).bytes(), b"ann".as_slice());
    Ok(())
}

#[test]
fn a_path_has_at_most_3200_bytes(rt: HostRuntime) -> Result<(), Fail> {
    let name = Name::new(&[b'n'; 123]).ok_or("name")?;
    let one_more = Name::new(&[b'n'; 100]).ok_or("name")?;
    let fits = Name::new(&[b'n'; 99]).ok_or("name")?;
    let mut path = Path::root();
    for _ in 0..25 {
        assert!(rt; path.push(&name));
    }
    assert!(rt; !path.push(&one_more));
    assert_eq!(rt; path.len(), 25);
    assert!(rt; path.push(&fits));
    assert_eq!(rt; path.text().len(), 3200);
    assert_eq!(rt; path.len(), 26);
    Ok(())
}

#[test]
fn a_room_holds_an_answer_in_order(rt: HostRuntime) -> Result<(), Fail> {
    let mut room = Room::new(rt.alloc())?;
    room.add_bytes(b"some ");
    room.add_bytes(b"bytes");
    assert_eq!(rt; room.bytes(), b"some bytes".as_slice());
    let last = Name::new(b"b").ok_or("name")?;
    let longer = Name::new(b"ab").ok_or("name")?;
    let prefix = Name::new(b"a").ok_or("name")?;
    room.add_entry(Entry {
        name: last,
        dir: false,
    });
    room.add_entry(Entry {
        name: longer,
        dir: true,
    });
    room.add_entry(Entry {
        name: prefix,
        dir: false,
    });
    room.sort_entries();
    let order: [&[u8]; 3] = [b"a", b"ab", b"b"];
    assert_eq!(rt; room.entries().len(), 3);
    for (entry, bytes) in room.entries().iter().zip(order) {
        assert_eq!(rt; entry.name.bytes(), bytes);
        assert_eq!(rt; entry.dir, bytes == b"ab".as_slice());
    }
    room.add_row(CubeRow {
        slot: 3,
        groups: 64,
        state: StateWord::Stopped,
        path: Path::root(),
    });
    assert_eq!(rt; room.rows().len(), 1);
    assert_eq!(rt; room.rows()[0].state, StateWord::Stopped);
    room.clear();
    assert!(rt; room.bytes().is_empty() && room.entries().is_empty() && room.rows().is_empty());
    Ok(())
}
