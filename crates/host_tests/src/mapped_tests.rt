use crate::refused::refused_at;
use host::{MappedHost, Row};
use record::Host;
use std::test::Fail;

fn row<'a>(referrer: &'a [u8], specifier: &'a [u8], target: &'a [u8]) -> Row<'a> {
    Row {
        referrer,
        specifier,
        target,
    }
}

#[test]
fn equal_targets_join_and_different_ones_do_not(rt: HostRuntime) -> Result<(), Fail> {
    let keys: [&[u8]; 2] = [b"a", b"b"];
    let rows = [
        row(b"a", b"x", b"b"),
        row(b"a", b"x", b"b"),
        row(b"a", b"Y", b"a"),
        row(b"a", b"Y", b"b"),
        row(b"b", b"x", b"a"),
        row(b"b", b"z", b"c"),
    ];
    let host = MappedHost::new(rt.alloc(), &keys, &rows)
        .ok()
        .ok_or("not made")?;
    assert_eq!(rt; host.seek(b"b"), Some(1));
    assert_eq!(rt; host.follow(0, b"x"), Some(1));
    assert_eq!(rt; host.follow(1, b"x"), Some(0));
    assert_eq!(rt; host.follow(0, b"Y"), None);
    assert_eq!(rt; host.follow(1, b"z"), None);
    assert_eq!(rt; host.follow(0, b"z"), None);
    assert_eq!(rt; host.follow(2, b"x"), None);
    Ok(())
}

#[test]
fn rows_are_at_most_64(rt: HostRuntime) {
    let keys: [&[u8]; 1] = [b"a"];
    let few = [row(b"a", b"x", b"a"); 64];
    assert!(rt; MappedHost::new(rt.alloc(), &keys, &few).is_ok());
    let many = [row(b"a", b"x", b"a"); 65];
    assert_eq!(rt;
        refused_at(MappedHost::new(rt.alloc(), &keys, &many)),
        Some(64)
    );
}

#[test]
fn malformed_rows_are_refused(rt: HostRuntime) {
    let keys: [&[u8]; 1] = [b"a"];
    let rows = [row(b"a", b"", b"a"), row(b"a", b"x", b"A")];
    assert_eq!(rt;
        refused_at(MappedHost::new(rt.alloc(), &keys, &rows)),
        Some(1)
    );
    let rows = [row(b"./a", b"x", b"a")];
    assert_eq!(rt;
        refused_at(MappedHost::new(rt.alloc(), &keys, &rows)),
        Some(0)
    );
}
