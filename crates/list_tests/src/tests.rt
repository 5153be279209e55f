use list::{SyntheticModule, read};
use names::same_name;
use record::Value;
use std::alloc::{AllocError, Global};
use std::process::Abort;
use std::test::Fail;

// The number of the cause and the byte of a refusal; none where the bytes are read. By number, since a cause cannot be compared.
fn refused(heap: Global, bytes: &[u8]) -> Option<(Option<u8>, usize)> {
    let fault = read(heap, bytes).err()?;
    Some((fault.cause.number(), fault.byte))
}

// This many entries, which are `undefined` and have distinct names of two letters.
fn entries(heap: Global, count: u8) -> Result<Vec<u8>, AllocError> {
    let mut bytes = Vec::new(heap);
    for i in 0..count {
        bytes.push(2)?;
        bytes.push(b'a' + i / 16)?;
        bytes.push(b'a' + i % 16)?;
    }
    Ok(bytes)
}

// The number that the entry with this pattern has.
fn number_of(heap: Global, pattern: &[u8]) -> Result<f64, Fail> {
    let mut bytes = b"\x41a".to_vec(heap)?;
    bytes.extend_from_slice(pattern)?;
    let module = read(heap, &bytes).ok().ok_or("refused")?;
    match module.values.get(0) {
        Some(Value::Number(x)) => Ok(*x),
        _ => Err(Fail::new("no number")),
    }
}

#[test]
fn limits_of_a_list(rt: HostRuntime) -> Result<(), Fail> {
    let heap = rt.alloc();
    assert_eq!(rt; refused(heap, b""), None);
    assert_eq!(rt; refused(heap, &entries(heap, 1)?), None);
    assert_eq!(rt; refused(heap, &entries(heap, 32)?), None);
    assert_eq!(rt; refused(heap, &entries(heap, 33)?), Some((Some(6), 96)));
    Ok(())
}

#[test]
fn a_33rd_is_malformed_first_and_repeated_last(rt: HostRuntime) -> Result<(), Fail> {
    let heap = rt.alloc();
    let mut bytes = entries(heap, 32)?;
    bytes.extend_from_slice(b"\x02a-")?;
    assert_eq!(rt; refused(heap, &bytes), Some((Some(7), 96)));
    bytes.truncate(96);
    bytes.extend_from_slice(b"\x02aa")?;
    assert_eq!(rt; refused(heap, &bytes), Some((Some(6), 96)));
    Ok(())
}

// Bytes that are read, or refused with this number at this byte.
struct Case {
    bytes: &'static [u8],
    refusal: Option<(Option<u8>, usize)>,
}

static CASES: [Case; 14] = [
    // name lengths 0, 1, 31 and 32
    Case {
        bytes: b"\x00",
        refusal: Some((Some(7), 0)),
    },
    Case {
        bytes: b"\x01a",
        refusal: None,
    },
    Case {
        bytes: b"\x1fabcdefghijklmnopqrstuvwxyz01234",
        refusal: None,
    },
    Case {
        bytes: b"\x20abcdefghijklmnopqrstuvwxyz012345",
        refusal: Some((Some(7), 0)),
    },
    // value kinds 2 and 3
    Case {
        bytes: b"\x81a",
        refusal: Some((Some(7), 0)),
    },
    Case {
        bytes: b"\xc1a",
        refusal: Some((Some(7), 0)),
    },
    // cut in the head, the name and the number
    Case {
        bytes: b"\x01",
        refusal: Some((Some(7), 0)),
    },
    Case {
        bytes: b"\x02a",
        refusal: Some((Some(7), 0)),
    },
    Case {
        bytes: b"\x41a\x00\x00\x00\x00\x00\x00\x00",
        refusal: Some((Some(7), 0)),
    },
    Case {
        bytes: b"\x41a\x00\x00\x00\x00\x00\x00\x00\x00",
        refusal: None,
    },
    // no word
    Case {
        bytes: b"\x021a",
        refusal: Some((Some(7), 0)),
    },
    Case {
        bytes: b"\x02$_",
        refusal: None,
    },
    // behind good entries: one that is malformed, and one that repeats a name
    Case {
        bytes: b"\x01a\x01b\x01-",
        refusal: Some((Some(7), 4)),
    },
    Case {
        bytes: b"\x01a\x01b\x01a",
        refusal: Some((Some(4), 4)),
    },
];

#[test]
fn lists_are_read_or_refused_at_a_byte(rt: HostRuntime) {
    for case in CASES.iter() {
        assert_eq!(rt; refused(rt.alloc(), case.bytes), case.refusal);
    }
}

// The module of `undefined` named `a` and of a number named `bc`.
fn check_two_entries(rt: &impl Abort, module: &SyntheticModule) -> Result<(), Fail> {
    assert_eq!(rt; module.record.requests.len(), 0);
    assert_eq!(rt; module.record.cells.len(), 2);
    assert_eq!(rt; module.record.locals.len(), 2);
    let cell = module.record.cells.get(1).ok_or("a cell")?;
    assert!(rt; same_name(cell.name.as_bytes(), b"bc"));
    assert_eq!(rt; cell.byte, 2);
    let local = module.record.locals.get(1).ok_or("an export")?;
    assert!(rt; same_name(local.export_name.as_bytes(), b"bc"));
    assert_eq!(rt; (local.cell, local.byte), (1, 2));
    assert_eq!(rt; module.values.len(), 2);
    assert!(rt; matches!(module.values.get(0), Some(Value::Undefined)));
    Ok(())
}

#[test]
fn each_entry_is_a_cell_and_its_export(rt: HostRuntime) -> Result<(), Fail> {
    let module = read(rt.alloc(), b"\x01a\x42bc\x00\x00\x00\x00\x00\x00\x00\x00");
    check_two_entries(&rt, module.as_ref().ok().ok_or("refused")?)
}

#[test]
fn numbers_by_their_patterns(rt: HostRuntime) -> Result<(), Fail> {
    let heap = rt.alloc();
    assert!(rt; number_of(heap, b"\xc0\x04\x00\x00\x00\x00\x00\x00")? == -2.5);
    assert!(rt; number_of(heap, b"\x7f\xf0\x00\x00\x00\x00\x00\x00")? == f64::INFINITY);
    assert!(rt; number_of(heap, b"\xff\xf0\x00\x00\x00\x00\x00\x00")? == f64::NEG_INFINITY);
    assert!(rt; 1.0 / number_of(heap, b"\x80\x00\x00\x00\x00\x00\x00\x00")? == f64::NEG_INFINITY);
    assert!(rt; number_of(heap, b"\x7f\xf8\x00\x00\x00\x00\x00\x00")?.is_nan());
    assert!(rt; number_of(heap, b"\x7f\xf0\x00\x00\x00\x00\x00\x01")?.is_nan());
    assert!(rt; number_of(heap, b"\xff\xff\xff\xff\xff\xff\xff\xff")?.is_nan());
    Ok(())
}
