//! Paths from bytes, and prefixes by whole names.
ghost use Rattle.std.specs.Prelude.{◌<◌};

use ice_path::{PathFault, is_prefix, read_path};

/// A slash at each multiple of `every`.
fn long_text(into: &mut [u8; 3300], every: usize)
    requires { 0 < every }
{
    for (i, b) in into.iter_mut().enumerate() {
        *b = if i % every == 0 { b'/' } else { b'n' };
    }
}

#[test]
fn the_first_fault_of_the_text_is_answered(rt: HostRuntime) {
    let table: [(&[u8], PathFault); 16] = [
        (b"", PathFault::Slash),
        (b"a", PathFault::Slash),
        (b"a//", PathFault::Slash),
        (b"\x20/", PathFault::Slash),
        (b"//", PathFault::Empty),
        (b"/a/", PathFault::Empty),
        (b"/a//b", PathFault::Empty),
        (b"/\x20//", PathFault::Empty),
        (b"/./", PathFault::Empty),
        (b"/\x20", PathFault::Byte),
        (b"/./\x7f", PathFault::Byte),
        (b"/a/b\x00", PathFault::Byte),
        (b"/.", PathFault::Dot),
        (b"/..", PathFault::Dot),
        (b"/a/../b", PathFault::Dot),
        (b"/a/.", PathFault::Dot),
    ];
    for (text, fault) in table {
        match read_path(text) {
            Ok(_) => assert!(rt; false, "{text:?} is read"),
            Err(found) => assert_eq!(rt; found, fault, "of {text:?}"),
        }
    }
}

#[test]
fn long_names_and_texts_are_refused(rt: HostRuntime) {
    let mut text = [b'n'; 3300];
    long_text(&mut text, 124);
    for (len, names) in [(124, 1), (248, 2), (3175, 26), (3200, 26), (3201, 0)] {
        match read_path(&text[..len]) {
            Ok(path) => assert_eq!(rt; path.len(), names, "at {len}"),
            Err(found) => {
                assert_eq!(rt; names, 0, "at {len}");
                assert_eq!(rt; found, PathFault::PathLong);
            }
        }
    }
    long_text(&mut text, 125);
    match read_path(&text) {
        Ok(_) => assert!(rt; false, "names of 124 bytes are read"),
        Err(found) => assert_eq!(rt; found, PathFault::NameLong),
    }
}

#[test]
fn prefixes_are_by_whole_names(rt: HostRuntime) {
    let table: [(&[u8], &[u8], bool); 9] = [
        (b"/", b"/", true),
        (b"/", b"/a", true),
        (b"/a", b"/", false),
        (b"/a", b"/a", true),
        (b"/a", b"/ab", false),
        (b"/a", b"/a/b", true),
        (b"/ab", b"/a/b", false),
        (b"/a/b", b"/a/c/b", false),
        (b"/a/b", b"/a/b/c", true),
    ];
    for (short, long, want) in table {
        match (read_path(short), read_path(long)) {
            (Ok(a), Ok(b)) => assert_eq!(rt; is_prefix(&a, &b), want, "of {short:?} and {long:?}"),
            _ => assert!(rt; false, "{short:?} and {long:?}"),
        }
    }
}

#[test]
fn a_path_has_the_names_of_its_text(rt: HostRuntime) {
    let table: [(&[u8], usize, &[u8]); 4] = [
        (b"/a", 1, b"a"),
        (b"/home/ann", 2, b"ann"),
        (b"/a/...", 2, b"..."),
        (b"/!/~/x.y", 3, b"x.y"),
    ];
    for (text, len, last) in table {
        match read_path(text) {
            Ok(path) => {
                assert_eq!(rt; path.len(), len, "of {text:?}");
                assert_eq!(rt; path.text(), text);
                assert!(rt; len > 0 && len <= path.len());
                assert_eq!(rt; path.name(len - 1).bytes(), last);
            }
            Err(_) => assert!(rt; false, "{text:?} is refused"),
        }
    }
    match read_path(b"/") {
        Ok(path) => assert_eq!(rt; path.len(), 0),
        Err(_) => assert!(rt; false, "/ is refused"),
    }
}
