use crate::lent::{FILLER, holds_only};
use crate::worked::{WORKED, padded, pairs};
use canonical_form::form::{form_of, labelled_form};
use graph::refusal::Refusal;
use graph::simple::LARGEST_FORM;
use std::test::Fail;

#[test]
fn opening_example(rt: HostRuntime) {
    let mut out = [FILLER; 32];
    assert_eq!(rt;
        form_of(&[2, 2, 1, 0, 1, 0, 5, 1, 1, 1, 0, 5], &mut out),
        Ok(11)
    );
    assert!(rt; holds_only(&out, &[2, 1, 0, 1, 0, 5, 1, 1, 1, 0, 5]));
}

#[test]
fn worked_examples(rt: HostRuntime) -> Result<(), Fail> {
    for worked in WORKED {
        let what = worked.what;
        let mut out = [FILLER; 40];
        assert_eq!(rt;
            form_of(worked.graph, &mut out),
            Ok(worked.form.len()),
            "{what}"
        );
        assert!(rt; holds_only(&out, worked.form), "{what}");
        let mut out = [FILLER; 40];
        let found = labelled_form(worked.graph, &mut out)?;
        assert_eq!(rt; found.length, worked.form.len(), "{what}");
        assert_eq!(rt; found.labelling.of, padded(worked.labelling), "{what}");
        assert!(rt; holds_only(&out, worked.form), "{what}");
    }
    Ok(())
}

#[test]
fn room(rt: HostRuntime) {
    // The form of x0 1 5, x0 2 x1, x1 1 5 has 16 numbers.
    let chain = [2, 3, 1, 0, 1, 0, 5, 1, 0, 2, 1, 1, 1, 1, 1, 0, 5];
    assert_eq!(rt; form_of(&chain, &mut [FILLER; 16]), Ok(16));
    let mut out = [FILLER; 15];
    assert_eq!(rt; form_of(&chain, &mut out), Err(Refusal::TooLittleRoom(15)));
    assert!(rt; holds_only(&out, &[]));
    assert_eq!(rt;
        labelled_form(&chain, &mut out).err(),
        Some(Refusal::TooLittleRoom(15))
    );
    assert!(rt; holds_only(&out, &[]));
    assert_eq!(rt; form_of(&[0, 0], &mut [FILLER; 1]), Ok(1));
    assert_eq!(rt; form_of(&[0, 0], &mut []), Err(Refusal::TooLittleRoom(0)));
}

#[test]
fn largest(rt: HostRuntime) -> Result<(), Fail> {
    // 256 triples without blank nodes, from the last to the first.
    let mut graph = vec![in rt.alloc(); 0, 256]?;
    let mut expected = vec![in rt.alloc(); 0]?;
    for name in 0..256 {
        graph.extend_from_slice(&[0, 255 - name, 7, 0, 7])?;
        expected.extend_from_slice(&[0, name, 7, 0, 7])?;
    }
    let mut out = [FILLER; LARGEST_FORM];
    assert_eq!(rt; form_of(graph.as_slice(), &mut out), Ok(LARGEST_FORM));
    assert!(rt; holds_only(&out, expected.as_slice()));
    Ok(())
}

#[test]
fn refusals_leave_what_was_lent(rt: HostRuntime) -> Result<(), Fail> {
    let mut out = [FILLER; 16];
    let too_many_leaves = pairs(rt.clone()?, 11)?;
    let refused: [(&[u64], Refusal); 6] = [
        (&[], Refusal::CutShort(0)),
        (&[2, 1, 1, 0, 7, 0], Refusal::CutShort(6)),
        (&[33, 0], Refusal::TooManyBlankNodes(33)),
        (&[2, 1, 1, 2, 7, 0, 5], Refusal::NoTriple(0)),
        (&[7, 0], Refusal::TooManyLeaves),
        (too_many_leaves.as_slice(), Refusal::TooLittleRoom(16)),
    ];
    for (graph, refusal) in refused {
        assert_eq!(rt; form_of(graph, &mut out), Err(refusal));
        assert!(rt; holds_only(&out, &[]), "{refusal}");
        assert_eq!(rt; labelled_form(graph, &mut out).err(), Some(refusal));
        assert!(rt; holds_only(&out, &[]), "{refusal}");
    }
    let mut out = [FILLER; LARGEST_FORM];
    assert_eq!(rt;
        form_of(too_many_leaves.as_slice(), &mut out),
        Err(Refusal::TooManyLeaves)
    );
    assert!(rt; holds_only(&out, &[]), "leaves were looked at");
    Ok(())
}
