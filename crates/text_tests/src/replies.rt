//! The text of replies, and closing lines read back.
ghost use Rattle.std.specs.Prelude.{◌≡◌, []};

use ice_text::{Closing, Out, read_closing, write_reply};
use std::alloc::Global;
use std::test::Fail;
use tree_spec::{CubeRow, Entry, Name, Path, Refusal, Reply, Room, StateWord, Value};

const REFUSALS: [(Refusal, &[u8]); 33] = [
    (Refusal::NameLong, b"no NameLong\n"),
    (Refusal::TooDeep, b"no TooDeep\n"),
    (Refusal::NotFound, b"no NotFound\n"),
    (Refusal::NotDir, b"no NotDir\n"),
    (Refusal::IsDir, b"no IsDir\n"),
    (Refusal::IsRoot, b"no IsRoot\n"),
    (Refusal::Exists, b"no Exists\n"),
    (Refusal::NotEmpty, b"no NotEmpty\n"),
    (Refusal::IntoItself, b"no IntoItself\n"),
    (Refusal::BeyondEnd, b"no BeyondEnd\n"),
    (Refusal::FileBig, b"no FileBig\n"),
    (Refusal::NoNodes, b"no NoNodes\n"),
    (Refusal::NoSpace, b"no NoSpace\n"),
    (Refusal::Spent, b"no Spent\n"),
    (Refusal::Damaged(15), b"no Damaged 15\n"),
    (Refusal::Fault, b"no Fault\n"),
    (Refusal::Memory, b"no Memory\n"),
    (Refusal::Word, b"no Word\n"),
    (Refusal::Args, b"no Args\n"),
    (Refusal::Number, b"no Number\n"),
    (Refusal::Hex, b"no Hex\n"),
    (Refusal::Long, b"no Long\n"),
    (Refusal::Path, b"no Path\n"),
    (Refusal::NoCube, b"no NoCube\n"),
    (Refusal::CrossCube, b"no CrossCube\n"),
    (Refusal::Offline, b"no Offline\n"),
    (Refusal::Stopped, b"no Stopped\n"),
    (Refusal::Unmounted, b"no Unmounted\n"),
    (Refusal::Mounted, b"no Mounted\n"),
    (Refusal::State, b"no State\n"),
    (Refusal::NoSlot, b"no NoSlot\n"),
    (Refusal::CubeFull, b"no CubeFull\n"),
    (Refusal::NoGroups, b"no NoGroups\n"),
];

/// The text of a reply without bytes, entries and rows.
fn text_of<'a>(out: &'a mut Out, room: &Room, reply: &Reply) -> &'a [u8] {
    out.clear();
    write_reply(reply, room, out);
    out.bytes()
}

#[test]
fn each_refusal_has_its_name(rt: HostRuntime) -> Result<(), Fail> {
    let room = Room::new(rt.alloc())?;
    let mut out = Out::new(rt.alloc())?;
    for (refusal, text) in &REFUSALS {
        assert_eq!(rt;
            text_of(&mut out, &room, &Err(*refusal)),
            *text,
            "of {refusal:?}"
        );
    }
    Ok(())
}

const CHECKED: Value = Value::Checked {
    blocks: 3,
    nodes: 3,
    done: 4,
};

const VALUES: [(Value, &[u8]); 9] = [
    (Value::Plain, b"ok\n"),
    (Value::Number(0), b"ok 0\n"),
    (
        Value::Number(9223372036854775807),
        b"ok 9223372036854775807\n",
    ),
    (
        Value::Number(18446744073709551615),
        b"ok 18446744073709551615\n",
    ),
    (Value::Bytes, b"ok -\n"),
    (Value::Dir(1), b"ok dir 1\n"),
    (Value::File(4), b"ok file 4\n"),
    (Value::Listed(0), b"ok 0\n"),
    (CHECKED, b"ok 3 3 4\n"),
];

#[test]
fn each_value_has_its_closing_line(rt: HostRuntime) -> Result<(), Fail> {
    let room = Room::new(rt.alloc())?;
    let mut out = Out::new(rt.alloc())?;
    for (value, text) in &VALUES {
        assert_eq!(rt;
            text_of(&mut out, &room, &Ok(*value)),
            *text,
            "of {value:?}"
        );
    }
    Ok(())
}

#[test]
fn bytes_are_hex_in_lower_case(rt: HostRuntime) -> Result<(), Fail> {
    let mut room = Room::new(rt.alloc())?;
    let mut out = Out::new(rt.alloc())?;
    room.add_bytes(b"Hello\n\x00\xff");
    assert_eq!(rt;
        text_of(&mut out, &room, &Ok(Value::Bytes)),
        b"ok 48656c6c6f0a00ff\n".as_slice()
    );
    Ok(())
}

fn name(text: &[u8]) -> Result<Name, Fail> {
    Ok(Name::new(text).ok_or("name")?)
}

/// The path of one name.
fn path(text: &[u8]) -> Result<Path, Fail> {
    let mut path = Path::root();
    if !path.push(&name(text)?) {
        return Err(Fail::new("path"));
    }
    Ok(path)
}

/// A directory and a file.
fn two_entries(alloc: Global) -> Result<Room, Fail> {
    let a = name(b"a")?;
    let todo = name(b"todo")?;
    let mut room = Room::new(alloc)?;
    room.add_entry(Entry { name: a, dir: true });
    room.add_entry(Entry {
        name: todo,
        dir: false,
    });
    Ok(room)
}

#[test]
fn a_directory_is_listed_entry_by_entry(rt: HostRuntime) -> Result<(), Fail> {
    let room = two_entries(rt.alloc())?;
    let mut out = Out::new(rt.alloc())?;
    assert_eq!(rt;
        text_of(&mut out, &room, &Ok(Value::Listed(2))),
        b"dir a\nfile todo\nok 2\n".as_slice()
    );
    Ok(())
}

fn cube_row(slot: u8, groups: u8, state: StateWord, path: Path) -> CubeRow {
    CubeRow {
        slot,
        groups,
        state,
        path,
    }
}

/// A row of each state.
fn four_rows(alloc: Global) -> Result<Room, Fail> {
    let home = cube_row(0, 4, StateWord::Unmounted, path(b"home")?);
    let mail = cube_row(1, 2, StateWord::Stopped, path(b"mail")?);
    let vm = cube_row(2, 8, StateWord::Mounted, path(b"vm")?);
    let mut room = Room::new(alloc)?;
    room.add_row(home);
    room.add_row(mail);
    room.add_row(vm);
    room.add_row(cube_row(15, 64, StateWord::Offline, Path::root()));
    Ok(room)
}

const LISTED: &[u8] =
    b"0 4 unmounted /home\n1 2 stopped /mail\n2 8 mounted /vm\n15 64 offline /\nok 4\n";

#[test]
fn cubes_are_listed_row_by_row(rt: HostRuntime) -> Result<(), Fail> {
    let room = four_rows(rt.alloc())?;
    let mut out = Out::new(rt.alloc())?;
    assert_eq!(rt; text_of(&mut out, &room, &Ok(Value::Listed(4))), LISTED);
    Ok(())
}

const CLOSINGS: [(&[u8], Option<Closing>); 51] = [
    (b"ok", Some(Closing::Ok)),
    (b"ok 5", Some(Closing::Ok)),
    (b"ok 0", Some(Closing::Ok)),
    (b"ok 18446744073709551615", Some(Closing::Ok)),
    (b"ok 3 3 4", Some(Closing::Ok)),
    (b"ok -", Some(Closing::Ok)),
    (b"ok 00ff", Some(Closing::Ok)),
    (b"ok 01", Some(Closing::Ok)),
    (b"ok 18446744073709551616", Some(Closing::Ok)),
    (b"ok dir 3", Some(Closing::Ok)),
    (b"ok file 0", Some(Closing::Ok)),
    (b"no NameLong", Some(Closing::No(1))),
    (b"no Spent", Some(Closing::No(14))),
    (b"no Damaged 15", Some(Closing::No(15))),
    (b"no Damaged 255", Some(Closing::No(15))),
    (b"no Fault", Some(Closing::No(16))),
    (b"no Path", Some(Closing::No(23))),
    (b"no NoCube", Some(Closing::No(24))),
    (b"no NoGroups", Some(Closing::No(33))),
    (b"", None),
    (b"dir a", None),
    (b"okay", None),
    (b"ok ", None),
    (b"ok  1", None),
    (b" ok", None),
    (b"ok 001", None),
    (b"ok 184467440737095516160", None),
    (b"ok dir 01", None),
    (b"ok file 18446744073709551616", None),
    (b"ok 3 03 4", None),
    (b"ok 00FF", None),
    (b"ok 00f", None),
    (b"ok 0g", None),
    (b"ok --", None),
    (b"ok 1 2", None),
    (b"ok 1 2 ", None),
    (b"ok 1 ff 3", None),
    (b"ok 1 2 3 4", None),
    (b"ok dir", None),
    (b"ok dir ff", None),
    (b"ok dir 1 2", None),
    (b"ok directory 3", None),
    (b"OK", None),
    (b"ok\n", None),
    (b"no", None),
    (b"no ", None),
    (b"no Thing", None),
    (b"no Damaged", None),
    (b"no Damaged 256", None),
    (b"no Damaged 1 2", None),
    (b"no Spent 1", None),
];

/// What a line is read as. What the call promises of it stays behind.
fn closing_of(line: &[u8]) -> Option<Closing> {
    read_closing(line)
}

#[test]
fn closing_lines_are_read(rt: HostRuntime) {
    for (line, closing) in &CLOSINGS {
        assert_eq!(rt; closing_of(line), *closing, "{line:?}");
    }
}
