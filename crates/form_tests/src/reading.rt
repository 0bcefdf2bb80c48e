use crate::lent::{FILLER, holds_only};
use crate::worked::WORKED;
use canonical_form::reading::read_form;
use graph::refusal::Refusal;
use std::test::Fail;

#[test]
fn opening_example(rt: HostRuntime) {
    let mut graph = [FILLER; 16];
    assert_eq!(rt;
        read_form(&[2, 1, 0, 1, 0, 5, 1, 1, 1, 0, 5], &mut graph),
        Ok(12)
    );
    assert!(rt; holds_only(&graph, &[2, 2, 1, 0, 1, 0, 5, 1, 1, 1, 0, 5]));
}

// A form is read back as its count of blank nodes, the count of its rows, and these.
#[test]
fn worked_examples(rt: HostRuntime) -> Result<(), Fail> {
    for worked in WORKED {
        let what = worked.what;
        let (blanks, rows) = worked.form.split_first().ok_or("a form without a number")?;
        let mut expected = vec![in rt.alloc(); *blanks, rows.len() as u64 / 5]?;
        expected.extend_from_slice(rows)?;
        let mut graph = [FILLER; 40];
        assert_eq!(rt;
            read_form(worked.form, &mut graph),
            Ok(expected.len()),
            "{what}"
        );
        assert!(rt; holds_only(&graph, expected.as_slice()), "{what}");
    }
    Ok(())
}

// The refusal of a row, unless what was lent for the graph was touched.
fn refusal(row: &[u64], lent: &mut [u64]) -> Option<Refusal> {
    let refusal = read_form(row, lent).err()?;
    holds_only(lent, &[]).then_some(refusal)
}

#[test]
fn room(rt: HostRuntime) {
    let twins = [2, 1, 0, 1, 0, 5, 1, 1, 1, 0, 5];
    assert_eq!(rt; read_form(&twins, &mut [FILLER; 12]), Ok(12));
    assert_eq!(rt;
        refusal(&twins, &mut [FILLER; 11]),
        Some(Refusal::TooLittleRoom(11))
    );
    assert_eq!(rt; read_form(&[0], &mut [FILLER; 2]), Ok(2));
    assert_eq!(rt;
        refusal(&[0], &mut [FILLER; 1]),
        Some(Refusal::TooLittleRoom(1))
    );
}

#[test]
fn no_rows_of_a_graph(rt: HostRuntime) {
    assert_eq!(rt;
        refusal(&[], &mut [FILLER; 40]),
        Some(Refusal::WrongLength(0))
    );
    assert_eq!(rt;
        refusal(&[2, 0, 0], &mut [FILLER; 40]),
        Some(Refusal::WrongLength(3))
    );
    assert_eq!(rt;
        refusal(&[33], &mut [FILLER; 40]),
        Some(Refusal::TooManyBlankNodes(33))
    );
    assert_eq!(rt;
        refusal(&[1, 1, 0, 3, 1, 0, 1, 1, 3, 1, 0], &mut [FILLER; 40]),
        Some(Refusal::NoTriple(1))
    );
}

#[test]
fn not_its_form(rt: HostRuntime) {
    // The form is 2, and x0 1 5, x0 2 x1, x1 1 5.
    let others: [(&[u64], &str); 4] = [
        (
            &[2, 1, 0, 1, 0, 5, 1, 1, 1, 0, 5, 1, 0, 2, 1, 1],
            "in another order",
        ),
        (
            &[
                2, 1, 0, 1, 0, 5, 1, 0, 2, 1, 1, 1, 1, 1, 0, 5, 1, 1, 1, 0, 5,
            ],
            "with a triple repeated",
        ),
        (
            &[2, 1, 0, 1, 0, 5, 1, 1, 1, 0, 5, 1, 1, 2, 1, 0],
            "numbered the other way round",
        ),
        (
            &[6, 0, 2, 2, 0, 2, 0, 1, 1, 0, 1],
            "in another order, with 720 leaves",
        ),
    ];
    for (row, what) in others {
        assert_eq!(rt;
            refusal(row, &mut [FILLER; 40]),
            Some(Refusal::NotItsForm(row.len() as u64)),
            "{what}"
        );
    }
}

#[test]
fn order_of_refusals(rt: HostRuntime) {
    // Seven blank nodes without triples have 5,040 leaves.
    let many_leaves = [7, 0, 2, 2, 0, 2, 0, 1, 1, 0, 1];
    assert_eq!(rt;
        refusal(&many_leaves, &mut [FILLER; 12]),
        Some(Refusal::TooManyLeaves),
        "that it is in another order is not told"
    );
    assert_eq!(rt;
        refusal(&many_leaves, &mut [FILLER; 11]),
        Some(Refusal::TooLittleRoom(11)),
        "nor are the leaves without room"
    );
    assert_eq!(rt;
        refusal(&[0, 2, 2, 2, 2, 2], &mut [FILLER; 0]),
        Some(Refusal::NoTriple(0))
    );
}

#[test]
fn rows_that_are_written_and_different(rt: HostRuntime) -> Result<(), Fail> {
    let mut row = vec![in rt.alloc(); 0]?;
    for name in 0..256 {
        row.extend_from_slice(&[0, name, 7, 0, 7])?;
    }
    assert_eq!(rt; read_form(row.as_slice(), &mut [FILLER; 1282]), Ok(1282));
    row.extend_from_slice(&[0, 255, 7, 0, 7])?;
    assert_eq!(rt;
        refusal(row.as_slice(), &mut [FILLER; 1287]),
        Some(Refusal::NotItsForm(1286)),
        "the last one is repeated"
    );
    assert_eq!(rt;
        refusal(row.as_slice(), &mut [FILLER; 1286]),
        Some(Refusal::TooLittleRoom(1286))
    );
    row.extend_from_slice(&[0, 256, 7, 0, 7])?;
    assert_eq!(rt;
        refusal(row.as_slice(), &mut [FILLER; 1286]),
        Some(Refusal::TooManyDifferentTriples),
        "257 different ones, and too little room"
    );
    Ok(())
}
