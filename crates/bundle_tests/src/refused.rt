// Each way in which an entry is refused, at its first byte.
use crate::made::{count_of, malformed};

#[test]
fn entries_are_refused_at_their_first_byte(rt: HostRuntime) {
    let heap = rt.alloc();
    // cut: in the head, in the key, in the payload
    assert_eq!(rt; count_of(heap, &[1]), malformed(0));
    assert_eq!(rt; count_of(heap, &[1, 0, 0]), malformed(0));
    assert_eq!(rt; count_of(heap, b"\x01\x00\x01a"), malformed(0));
    assert_eq!(rt;
        count_of(heap, b"\x01\x00\x00a\x01\x00\x05bxxxx"),
        malformed(4)
    );
    // of another kind
    assert_eq!(rt; count_of(heap, b"\x81\x00\x00a"), malformed(0));
    assert_eq!(rt; count_of(heap, b"\xc1\x00\x00a"), malformed(0));
    assert_eq!(rt; count_of(heap, b"\x41\x00\x00a"), Ok(1));
    // a key twice
    assert_eq!(rt; count_of(heap, b"\x01\x00\x00a\x41\x00\x00a"), malformed(4));
}

#[test]
fn keys_are_segments(rt: HostRuntime) {
    let heap = rt.alloc();
    assert_eq!(rt; count_of(heap, b"\x00\x00\x00"), malformed(0));
    assert_eq!(rt; count_of(heap, b"\x01\x00\x00."), malformed(0));
    assert_eq!(rt; count_of(heap, b"\x02\x00\x00.."), malformed(0));
    assert_eq!(rt; count_of(heap, b"\x03\x00\x00..."), Ok(1));
    assert_eq!(rt; count_of(heap, b"\x03\x00\x00a//"), malformed(0));
    assert_eq!(rt; count_of(heap, b"\x02\x00\x00/a"), malformed(0));
    assert_eq!(rt; count_of(heap, b"\x02\x00\x00a/"), malformed(0));
    assert_eq!(rt; count_of(heap, b"\x05\x00\x00a/b.c"), Ok(1));
    assert_eq!(rt; count_of(heap, b"\x01\x00\x00A"), malformed(0));
    assert_eq!(rt; count_of(heap, b"\x03\x00\x00_-9"), Ok(1));
}
