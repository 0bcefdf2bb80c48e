use graph::encoded;
use graph::encoded::Header;
use graph::refusal::Refusal;
use std::test::Fail;

#[test]
fn opening_example(rt: HostRuntime) -> Result<(), Fail> {
    assert_eq!(rt;
        encoded::check(&[2, 1, 1, 0, 7, 0, 5]),
        Ok(Header {
            blanks: 2,
            triples: 1,
        })
    );
    let refusal = encoded::check(&[2, 1, 1, 2, 7, 0, 5])
        .err()
        .ok_or("not refused")?;
    assert_eq!(rt; refusal.to_string(rt.alloc())?.as_str(), "refused 2 at 0");
    assert_eq!(rt; encoded::check_rows(2, &[1, 0, 7, 0, 5]), Ok(()));
    Ok(())
}

#[test]
fn cut_short(rt: HostRuntime) {
    assert_eq!(rt; encoded::check(&[]), Err(Refusal::CutShort(0)));
    assert_eq!(rt; encoded::check(&[0]), Err(Refusal::CutShort(1)));
    assert_eq!(rt;
        encoded::check(&[0, 1, 0, 7, 7, 0]),
        Err(Refusal::CutShort(6))
    );
    assert_eq!(rt; encoded::check(&[0, u64::MAX]), Err(Refusal::CutShort(2)));
    assert_eq!(rt;
        encoded::check(&[33, 65537]),
        Err(Refusal::CutShort(2)),
        "cut short is told first"
    );
}

#[test]
fn too_many(rt: HostRuntime) -> Result<(), Fail> {
    assert_eq!(rt;
        encoded::check(&[32, 0]),
        Ok(Header {
            blanks: 32,
            triples: 0,
        })
    );
    assert_eq!(rt;
        encoded::check(&[33, 0]),
        Err(Refusal::TooManyBlankNodes(33))
    );
    let mut graph = vec![in rt.alloc(); 0; 2 + 5 * 65537]?;
    graph[1] = 65537;
    assert_eq!(rt;
        encoded::check(graph.as_slice()),
        Err(Refusal::TooManyTriples(65537))
    );
    Ok(())
}

#[test]
fn no_triple(rt: HostRuntime) {
    let last = 4294967295;
    assert_eq!(rt;
        encoded::check(&[2, 1, 1, 1, last, 0, last]),
        Ok(Header {
            blanks: 2,
            triples: 1,
        })
    );
    assert_eq!(rt;
        encoded::check(&[2, 1, 2, 0, 0, 0, 0]),
        Err(Refusal::NoTriple(0)),
        "kind 2"
    );
    assert_eq!(rt;
        encoded::check(&[2, 1, 1, 2, 0, 0, 0]),
        Err(Refusal::NoTriple(0)),
        "blank node 2 of 2"
    );
    assert_eq!(rt;
        encoded::check(&[2, 1, 0, 0, last + 1, 0, 0]),
        Err(Refusal::NoTriple(0))
    );
    assert_eq!(rt;
        encoded::check(&[2, 1, 0, 0, 0, 0, last + 1]),
        Err(Refusal::NoTriple(0))
    );
    let second = [2, 3, 0, 0, 0, 0, 0, 1, 1, 0, 1, 2, 7, 7, 7, 7, 7];
    assert_eq!(rt;
        encoded::check(&second),
        Err(Refusal::NoTriple(1)),
        "the first that is at fault"
    );
}

#[test]
fn numbers_behind_are_ignored(rt: HostRuntime) {
    assert_eq!(rt;
        encoded::check(&[1, 1, 1, 0, 7, 0, 7, 9, 9]),
        Ok(Header {
            blanks: 1,
            triples: 1,
        })
    );
}

#[test]
fn rows_alone(rt: HostRuntime) {
    assert_eq!(rt; encoded::check_rows(2, &[1, 1, 7, 0, 5]), Ok(()));
    assert_eq!(rt;
        encoded::check_rows(1, &[1, 1, 7, 0, 5]),
        Err(Refusal::NoTriple(0)),
        "blank node 1 of 1"
    );
    assert_eq!(rt;
        encoded::check_rows(2, &[0, 9, 9, 1, 1, 0, 9, 9, 1, 2, 2, 2, 2, 2, 2]),
        Err(Refusal::NoTriple(1)),
        "the first that is at fault"
    );
    assert_eq!(rt;
        encoded::check_rows(33, &[2, 2, 2, 2, 2]),
        Err(Refusal::TooManyBlankNodes(33)),
        "number 1 is told first"
    );
    assert_eq!(rt; encoded::check_rows(32, &[]), Ok(()));
    assert_eq!(rt;
        encoded::check_rows(0, &[2, 2, 2, 2]),
        Ok(()),
        "no whole row"
    );
    assert_eq!(rt;
        encoded::check_rows(0, &[0, 7, 7, 0, 7, 2]),
        Ok(()),
        "behind the last whole row"
    );
}

#[test]
fn too_many_rows(rt: HostRuntime) -> Result<(), Fail> {
    let rows = vec![in rt.alloc(); 0; 5 * 65537]?;
    assert_eq!(rt;
        encoded::check_rows(0, rows.as_slice()),
        Err(Refusal::TooManyTriples(65537))
    );
    assert_eq!(rt; encoded::check_rows(0, &rows[1..]), Ok(()));
    Ok(())
}

#[test]
fn told_in_a_line(rt: HostRuntime) -> Result<(), Fail> {
    assert_eq!(rt;
        Refusal::CutShort(0).to_string(rt.alloc())?.as_str(),
        "refused 1 at 0"
    );
    assert_eq!(rt;
        Refusal::NoTriple(65535).to_string(rt.alloc())?.as_str(),
        "refused 2 at 65535"
    );
    assert_eq!(rt;
        Refusal::WrongLength(0).to_string(rt.alloc())?.as_str(),
        "refused 1 at 0"
    );
    assert_eq!(rt;
        Refusal::NotItsForm(6).to_string(rt.alloc())?.as_str(),
        "refused 4 at 6"
    );
    assert_eq!(rt;
        Refusal::TooManyLeaves.to_string(rt.alloc())?.as_str(),
        "refused 5 at 1025"
    );
    Ok(())
}
