use crate::one_cell::OneCell;
use crate::one_key::OneKey;
use record::{Cause, Cells, Denial, FaultCause, Host, Kind, Value};
use std::test::Fail;

#[test]
fn one_key_is_sought_and_followed(rt: HostRuntime) {
    let host = OneKey;
    assert_eq!(rt; host.seek(b"a"), Some(0));
    assert_eq!(rt; host.seek(b"b"), None);
    assert_eq!(rt; host.follow(0, b"./a"), Some(0));
    assert_eq!(rt; host.follow(1, b"./a"), None);
}

#[test]
fn a_run_stores_to_its_own_module(rt: HostRuntime) -> Result<(), Fail> {
    let mut kind = OneCell::new(rt.alloc(), Value::Undefined)?;
    assert!(rt; kind.read(7).is_ok());
    let mut cells = Cells::new();
    assert!(rt; kind.run(3, &[], &mut cells).is_ok());
    assert!(rt; matches!(cells.get(3, 0), Some(Value::Undefined)));
    assert!(rt; matches!(cells.get(2, 0), None));
    assert_eq!(rt; kind.trail_count(), 1);
    Ok(())
}

#[test]
fn values_are_shown(rt: HostRuntime) -> Result<(), Fail> {
    let shown = format!(in rt.alloc();
        "{} {} {} {}",
        Value::Undefined,
        Value::Number(12.5),
        Value::Number(f64::INFINITY),
        Value::Number(f64::NEG_INFINITY)
    )?;
    assert_eq!(rt; shown.as_str(), "undefined 12.5 Infinity -Infinity");
    Ok(())
}

#[test]
fn denials_are_shown(rt: HostRuntime) -> Result<(), Fail> {
    let thrown = Denial {
        cause: Cause::BodyFault(FaultCause::Thrown(Value::Undefined)),
        place: Some(3),
        byte: 40,
    };
    let shown = format!(in rt.alloc(); "{thrown}")?;
    assert_eq!(rt;
        shown.as_str(),
        "denied 12 place 3 byte 40 (throw undefined)"
    );
    let malformed = Denial {
        cause: Cause::MalformedBundle,
        place: None,
        byte: 5,
    };
    let shown = format!(in rt.alloc(); "{malformed}")?;
    assert_eq!(rt;
        shown.as_str(),
        "denied 13 place - byte 5 (malformed bundle or rows)"
    );
    let no_memory = Denial {
        cause: Cause::OutOfMemory,
        place: None,
        byte: 0,
    };
    let shown = format!(in rt.alloc(); "{no_memory}")?;
    assert_eq!(rt; shown.as_str(), "denied: out of memory");
    Ok(())
}
