//! The text of a reply.
ghost use Rattle.std.specs.Prelude.{◌≡◌, ◌≤◌, ◌+◌, ◌*◌, ◌++◌, ◌∷◌, [], length, map, decimal, true, All};
ghost use Rattle.tree_spec.specs.Names.{is_name, IsNameList};
ghost use Rattle.tree_spec.specs.Replies.{accepted_of, meant, refused_of, Checked, Listed, HasNames};
ghost use Rattle.tree_spec.specs.Held.{most_bytes, most_entries, most_rows};
ghost use Rattle.ice_text.specs.Text.{closing_line, ended, entry_line, hex_token, most_entry_line, most_row_line, most_text, number_words, refused_words, row_line, state_word, text};

use crate::out::Out;
use tree_spec::{CubeRow, Entry, Refusal, Reply, Room, StateWord, Value};

fn blank() -> [u8; 32768] {
    [0; 32768]
}

/// The bytes as hex digits in lower case, `-` for none.
fn write_hex(bytes: &[u8], out: &mut Out)
    requires few { length bytes.now ≤ most_bytes }
    requires room { length out.old + 2 * length bytes.now + 1 ≤ most_text }
    ensures text { out.new ≡ out.old ++ hex_token bytes.now }
    ensures short { length out.new ≤ length out.old + 2 * length bytes.now + 1 }
{
    if bytes.is_empty() {
        out.add(b"-");
        return;
    }
    let mut digits = blank();
    let digits = &mut digits[..2 * bytes.len()];
    let _ = hex::encode_to_slice(bytes, digits);
    out.add(digits);
}

fn word_of(state: StateWord) -> &'static [u8]
    ensures word { result.now ≡ state_word state }
    ensures short { length result.now ≤ 9 }
{
    match state {
        StateWord::Mounted => b"mounted",
        StateWord::Unmounted => b"unmounted",
        StateWord::Stopped => b"stopped",
        StateWord::Offline => b"offline",
    }
}

fn write_entry(entry: &Entry, out: &mut Out)
    requires { length out.old + most_entry_line ≤ most_text }
    ensures text { out.new ≡ out.old ++ entry_line entry.now ++ 10 ∷ [] }
    ensures name { is_name entry.now.name ≡ true }
    ensures short { length out.new ≤ length out.old + most_entry_line }
{
    if entry.dir {
        out.add(b"dir ");
    } else {
        out.add(b"file ");
    }
    out.add(entry.name.bytes());
    out.add(b"\n");
}

fn write_row(row: &CubeRow, out: &mut Out)
    requires { length out.old + most_row_line ≤ most_text }
    ensures text { out.new ≡ out.old ++ row_line row.now ++ 10 ∷ [] }
    ensures names { IsNameList row.now.path }
    ensures short { length out.new ≤ length out.old + most_row_line }
{
    out.add_number(u64::from(row.slot));
    out.add(b" ");
    out.add_number(u64::from(row.groups));
    out.add(b" ");
    out.add(word_of(row.state));
    out.add(b" ");
    out.add(row.path.text());
    out.add(b"\n");
}

fn write_entries(entries: &[Entry], out: &mut Out)
    requires few { length entries.now ≤ most_entries }
    requires empty { out.old ≡ [] }
    ensures text { out.new ≡ ended (map entry_line entries.now) }
    ensures names { All (λ e. is_name e.name ≡ true) entries.now }
    ensures short { length out.new ≤ most_entry_line * length entries.now }
{
    for entry in entries {
        write_entry(entry, out);
    }
}

fn write_rows(rows: &[CubeRow], out: &mut Out)
    requires few { length rows.now ≤ most_rows }
    requires room { length out.old ≤ most_entry_line * most_entries }
    ensures text { out.new ≡ out.old ++ ended (map row_line rows.now) }
    ensures names { All (λ row. IsNameList row.path) rows.now }
    ensures short { length out.new ≤ length out.old + most_row_line * length rows.now }
{
    for row in rows {
        write_row(row, out);
    }
}

/// A closing line with one number.
fn write_count(words: &[u8], count: u64, out: &mut Out)
    requires { length out.old + length words.now + 21 ≤ most_text }
    ensures { out.new ≡ out.old ++ (words.now ++ decimal count ++ 10 ∷ []) }
{
    out.add(words);
    out.add_number(count);
    out.add(b"\n");
}

#[tactic(auto, unfolding(crate::specs::Text::text))]
fn write_listing(room: &Room, out: &mut Out)
    requires { out.old ≡ [] }
    ensures text { out.new ≡ text (Ok (Listed room.now.entries room.now.rows)) }
    ensures names { HasNames (Ok (Listed room.now.entries room.now.rows)) }
{
    let entries = room.entries();
    let rows = room.rows();
    write_entries(entries, out);
    write_rows(rows, out);
    write_count(b"ok ", (entries.len() + rows.len()) as u64, out);
}

/// A refusal's name, and the rule's number for damage.
fn name_of(refusal: &Refusal) -> (&'static [u8], Option<u8>)
    ensures words { refused_words (refused_of refusal.now) ≡ result.0.now ++ number_words result.1 }
    ensures short { length result.0.now ≤ 10 }
{
    let name: &'static [u8] = match refusal {
        Refusal::NameLong => b"NameLong",
        Refusal::TooDeep => b"TooDeep",
        Refusal::NotFound => b"NotFound",
        Refusal::NotDir => b"NotDir",
        Refusal::IsDir => b"IsDir",
        Refusal::IsRoot => b"IsRoot",
        Refusal::Exists => b"Exists",
        Refusal::NotEmpty => b"NotEmpty",
        Refusal::IntoItself => b"IntoItself",
        Refusal::BeyondEnd => b"BeyondEnd",
        Refusal::FileBig => b"FileBig",
        Refusal::NoNodes => b"NoNodes",
        Refusal::NoSpace => b"NoSpace",
        Refusal::Spent => b"Spent",
        Refusal::Damaged(rule) => return (b"Damaged", Some(*rule)),
        Refusal::Fault => b"Fault",
        Refusal::Memory => b"Memory",
        Refusal::Word => b"Word",
        Refusal::Args => b"Args",
        Refusal::Number => b"Number",
        Refusal::Hex => b"Hex",
        Refusal::Long => b"Long",
        Refusal::Path => b"Path",
        Refusal::NoCube => b"NoCube",
        Refusal::CrossCube => b"CrossCube",
        Refusal::Offline => b"Offline",
        Refusal::Stopped => b"Stopped",
        Refusal::Unmounted => b"Unmounted",
        Refusal::Mounted => b"Mounted",
        Refusal::State => b"State",
        Refusal::NoSlot => b"NoSlot",
        Refusal::CubeFull => b"CubeFull",
        Refusal::NoGroups => b"NoGroups",
    };
    (name, None)
}

#[tactic(auto, unfolding(crate::specs::Text::text))]
fn write_refusal(refusal: &Refusal, out: &mut Out)
    requires { out.old ≡ [] }
    ensures { out.new ≡ text (Err (refused_of refusal.now)) }
{
    let (name, number) = name_of(refusal);
    out.add(b"no ");
    out.add(name);
    if let Some(number) = number {
        out.add(b" ");
        out.add_number(u64::from(number));
    }
    out.add(b"\n");
}

#[tactic(auto, unfolding(crate::specs::Text::text))]
fn write_checked(blocks: u32, nodes: u32, done: u64, out: &mut Out)
    requires { out.old ≡ [] }
    ensures { out.new ≡ text (Ok (Checked blocks nodes done)) }
{
    out.add(b"ok ");
    out.add_number(u64::from(blocks));
    out.add(b" ");
    out.add_number(u64::from(nodes));
    write_count(b" ", done, out);
}

#[tactic(auto, unfolding(crate::specs::Text::text))]
fn write_value(value: &Value, room: &Room, out: &mut Out)
    requires { out.old ≡ [] }
    ensures text { out.new ≡ text (Ok (accepted_of value.now room.now)) }
    ensures names { HasNames (Ok (accepted_of value.now room.now)) }
{
    match value {
        Value::Plain => out.add(b"ok\n"),
        Value::Number(count) => write_count(b"ok ", *count, out),
        Value::Bytes => {
            out.add(b"ok ");
            write_hex(room.bytes(), out);
            out.add(b"\n");
        }
        Value::Dir(count) => write_count(b"ok dir ", u64::from(*count), out),
        Value::File(count) => write_count(b"ok file ", u64::from(*count), out),
        Value::Listed(_) => write_listing(room, out),
        Value::Checked {
            blocks,
            nodes,
            done,
        } => write_checked(*blocks, *nodes, *done, out),
    }
}

/// Writes the data lines and the closing line of a reply, each ended by an LF.
pub fn write_reply(reply: &Reply, room: &Room, out: &mut Out)
    requires { out.old ≡ [] }
    ensures text { out.new ≡ text (meant reply.now room.now) }
    ensures names { HasNames (meant reply.now room.now) }
{
    match reply {
        Ok(value) => write_value(value, room, out),
        Err(refusal) => write_refusal(refusal, out),
    }
}
