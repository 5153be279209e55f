use crate::refused::refused_at;
use host::FileHost;
use record::Host;
use std::process::Abort;
use std::test::Fail;

// Each of these specifiers leads from this place to this answer.
fn all_lead(
    rt: &impl Abort,
    host: &FileHost<'_>,
    place: usize,
    specifiers: &[&[u8]],
    answer: Option<usize>,
) {
    for s in specifiers {
        assert_eq!(rt; host.follow(place, s), answer);
    }
}

#[test]
fn paths_are_followed(rt: HostRuntime) -> Result<(), Fail> {
    let keys: [&[u8]; 4] = [b"a/b", b"a/c/d", b"a", b"e"];
    let host = FileHost::new(rt.alloc(), &keys).ok().ok_or("not made")?;
    assert_eq!(rt; host.seek(b"a/c/d"), Some(1));
    assert_eq!(rt; host.seek(b"a/c"), None);
    all_lead(&rt, &host, 0, &[b"./c/d", b"../a/c/d"], Some(1));
    all_lead(&rt, &host, 0, &[b"./.", b"./c/..", b"../a"], Some(2));
    all_lead(&rt, &host, 1, &[b"../b", b"./x/.././../b"], Some(0));
    all_lead(&rt, &host, 1, &[b"../../e", b"./../../e"], Some(3));
    all_lead(
        &rt,
        &host,
        2,
        &[b"./bbbbbbbbbbbbbbbbbbbbbbbb/bbbbbbbbbbbbbbbbbbbbbbbbbbbbbbbb/bbbbbbbbbbbbbb/../../../e"],
        Some(3),
    );
    Ok(())
}

#[test]
fn other_specifiers_lead_nowhere(rt: HostRuntime) -> Result<(), Fail> {
    let keys: [&[u8]; 3] = [b"a/b", b"a", b"e"];
    let host = FileHost::new(rt.alloc(), &keys).ok().ok_or("not made")?;
    all_lead(
        &rt,
        &host,
        0,
        &[b"..", b"../..", b"../../a/b", b"/b", b"b"],
        None,
    );
    all_lead(
        &rt,
        &host,
        1,
        &[b"./.", b"./", b".//a", b"./a/..", b"./E", b"e"],
        None,
    );
    all_lead(
        &rt,
        &host,
        1,
        &[b"./bbbbbbbbbbbbbbbbbbbbbbbb/bbbbbbbbbbbbbbbbbbbbbbbbbbbbbbbb/bbbbbbbbbbbbbb"],
        None,
    );
    all_lead(&rt, &host, 3, &[b"./e"], None);
    Ok(())
}

#[test]
fn bad_keys_are_refused(rt: HostRuntime) {
    let upper: [&[u8]; 2] = [b"a", b"B"];
    assert_eq!(rt; refused_at(FileHost::new(rt.alloc(), &upper)), Some(1));
    let twice: [&[u8]; 3] = [b"a", b"b", b"a"];
    assert_eq!(rt; refused_at(FileHost::new(rt.alloc(), &twice)), Some(2));
}
