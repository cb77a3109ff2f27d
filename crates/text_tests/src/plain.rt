//! The plain tree, which other tests compare with.
use plain_tree::{PlainForm, PlainTree, answer, form_one, form_two, map_cost};
use std::test::Fail;
use tree_spec::{Command, Name, Path, Refusal, Reply, Value};

const PLAIN: Reply = Ok(Value::Plain);

/// What no session of one cube of the first form shows: the longest name of both forms, and the last count.
#[test]
fn names_and_counts_are_limited(rt: HostRuntime) -> Result<(), Fail> {
    let alloc = rt.alloc();
    let bytes = [b'n'; 123];
    let most = 0x7FFF_FFFF_FFFF_FFFF;
    let rows: [(u64, PlainForm, usize, Reply); 6] = [
        (0, form_one(), 59, PLAIN),
        (0, form_one(), 60, Err(Refusal::NameLong)),
        (0, form_two(), 60, PLAIN),
        (0, form_two(), 123, PLAIN),
        (most - 1, form_one(), 1, PLAIN),
        (most, form_one(), 1, Err(Refusal::Spent)),
    ];
    for (done, form, length, want) in rows {
        let mut path = Path::root();
        let name = Name::new(&bytes[..length]).ok_or("name")?;
        assert!(rt; path.push(&name));
        let command = Command::Mkdir { path };
        let (reply, _) = answer(alloc, PlainTree::new(alloc), done, 1, form, &command, 0)?;
        assert_eq!(rt; reply.reply, want, "{length} bytes at count {done}");
    }
    Ok(())
}

#[test]
fn maps_have_their_costs(rt: HostRuntime) {
    let rows = [
        (0, 0),
        (12, 12),
        (13, 14),
        (268, 269),
        (269, 272),
        (524, 527),
        (525, 529),
    ];
    for (blocks, cost) in rows {
        assert_eq!(rt; map_cost(blocks), cost, "of {blocks}");
    }
}
