// Both sides of each limit, and that writing and reading agree.
use crate::made::{count_of, malformed, numbered, one_text, text};
use bundle::PayloadKind;
use names::same_name;
use std::test::Fail;

const KEY_63: &[u8] = b"kkkkkkkkkkkkkkkkkkkkkkkkkkkkkkkkkkkkkkkkkkkkkkkkkkkkkkkkkkkkkkk";

const KEY_64: &[u8] = b"kkkkkkkkkkkkkkkkkkkkkkkkkkkkkkkkkkkkkkkkkkkkkkkkkkkkkkkkkkkkkkkk";

#[test]
fn at_most_32_modules(rt: HostRuntime) -> Result<(), Fail> {
    let heap = rt.alloc();
    assert_eq!(rt; count_of(heap, b""), Ok(0));
    assert_eq!(rt; count_of(heap, numbered(heap, 1)?.as_slice()), Ok(1));
    assert_eq!(rt; count_of(heap, numbered(heap, 32)?.as_slice()), Ok(32));
    assert_eq!(rt;
        count_of(heap, numbered(heap, 33)?.as_slice()),
        malformed(26 * 4 + 6 * 5)
    );
    Ok(())
}

#[test]
fn at_most_65536_bytes(rt: HostRuntime) -> Result<(), Fail> {
    let heap = rt.alloc();
    assert_eq!(rt; count_of(heap, one_text(heap, 65532)?.as_slice()), Ok(1));
    assert_eq!(rt;
        count_of(heap, one_text(heap, 65533)?.as_slice()),
        malformed(65536)
    );
    Ok(())
}

#[test]
fn keys_of_63_bytes(rt: HostRuntime) -> Result<(), Fail> {
    let heap = rt.alloc();
    assert!(rt; bundle::write(heap, &[text(KEY_63, b"")]).is_ok());
    let written = bundle::write(heap, &[text(b"a", b"xy"), text(KEY_64, b"")]);
    let denial = written.err().ok_or("a key of 64 bytes is written")?;
    assert_eq!(rt; denial.byte, 6);
    Ok(())
}

#[test]
fn what_is_written_is_read(rt: HostRuntime) -> Result<(), Fail> {
    let heap = rt.alloc();
    let written = bundle::write(heap, &[text(b"a/b", b"let x;"), text(b"c", b"")]);
    let bytes = written.ok().ok_or("not written")?;
    assert!(rt; same_name(&bytes, b"\x03\x00\x06a/blet x;\x01\x00\x00c"));
    let entries = bundle::read(heap, &bytes).ok().ok_or("not read")?;
    assert_eq!(rt; entries.len(), 2);
    assert!(rt; matches!(entries[0].kind, PayloadKind::Text));
    assert!(rt; same_name(entries[0].key, b"a/b"));
    assert!(rt; same_name(entries[0].payload, b"let x;"));
    assert!(rt; same_name(entries[1].key, b"c"));
    Ok(())
}
