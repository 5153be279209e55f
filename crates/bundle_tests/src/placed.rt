// The entries of a bundle with their bytes, and without.
use bundle::{Entry, PayloadKind};
use names::same_name;
use std::test::Fail;

#[test]
fn entries_are_read_with_their_bytes(rt: HostRuntime) -> Result<(), Fail> {
    let read = entries::read::<Entry<'_>>(rt.alloc(), b"\x03\x00\x06a/blet x;\x41\x00\x00c");
    let all = read.ok().ok_or("refused")?;
    assert_eq!(rt; all.len(), 2);
    assert_eq!(rt; (all[0].byte, all[1].byte), (0, 12));
    assert!(rt; same_name(all[0].entry.key, b"a/b"));
    assert!(rt; matches!(all[1].entry.kind, PayloadKind::List));
    assert!(rt; same_name(all[1].entry.key, b"c"));
    Ok(())
}

#[test]
fn entries_are_read_as_what_is_made_of_them(rt: HostRuntime) -> Result<(), Fail> {
    let bytes = b"\x03\x00\x06a/blet x;\x41\x00\x00c";
    let read = entries::read_as::<Entry<'_>, Entry<'_>>(rt.alloc(), bytes);
    let all = read.ok().ok_or("refused")?;
    assert_eq!(rt; all.len(), 2);
    assert!(rt; same_name(all[0].payload, b"let x;"));
    assert!(rt; same_name(all[1].key, b"c"));
    Ok(())
}
