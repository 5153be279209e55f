// How outcomes of bindings and of keys join.
use outcome::{Outcome, join, join_all};
use std::test::Fail;

#[test]
fn bindings_join(rt: HostRuntime) -> Result<(), Fail> {
    assert!(rt;
        matches!(
            join(Outcome::One((1, 2)), Outcome::One((1, 2))),
            Outcome::One((1, 2))
        )
    );
    assert!(rt;
        matches!(
            join(Outcome::One((1, 2)), Outcome::One((2, 1))),
            Outcome::Several
        )
    );
    assert!(rt;
        matches!(
            join(Outcome::Nothing, Outcome::One((3, 4))),
            Outcome::One((3, 4))
        )
    );
    assert!(rt;
        matches!(
            join_all::<(usize, usize)>(Vec::new(rt.alloc())),
            Outcome::Nothing
        )
    );
    let all = vec![in rt.alloc();
        Outcome::One((1, 2)),
        Outcome::Nothing,
        Outcome::One((1, 2)),
    ]?;
    assert!(rt; matches!(join_all(all), Outcome::One((1, 2))));
    Ok(())
}

#[test]
fn keys_join_by_their_bytes(rt: HostRuntime) {
    let a: &[u8] = b"hub/a";
    let b: &[u8] = b"hub/b";
    assert!(rt; matches!(join(Outcome::One(a), Outcome::One(a)), Outcome::One(_)));
    assert!(rt; matches!(join(Outcome::One(a), Outcome::One(b)), Outcome::Several));
    assert!(rt; matches!(join(Outcome::Several, Outcome::One(b)), Outcome::Several));
}
