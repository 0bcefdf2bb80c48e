use crate::lent::{FILLER, holds_only};
use crate::worked::{WORKED, padded, pairs};
use graph::refusal::Refusal;
use graph::simple::LARGEST_FORM;
use graph::simple::reading::read_graph;
use search_tree::least::{Found, LONGEST_CERTIFICATE, find_least};
use std::test::Fail;

// What is found of an encoded graph.
fn found(graph: &[u64], best: &mut [u64; LONGEST_CERTIFICATE]) -> Result<Found, Refusal> {
    find_least(
        &read_graph(graph, LARGEST_FORM)?,
        &mut [FILLER; LONGEST_CERTIFICATE],
        best,
    )
}

// The third of them is the example that the library opens with.
#[test]
fn worked_examples(rt: HostRuntime) -> Result<(), Fail> {
    for worked in WORKED {
        let what = worked.what;
        let mut best = [FILLER; LONGEST_CERTIFICATE];
        let found = found(worked.graph, &mut best)?;
        assert_eq!(rt; found.leaves, worked.leaves, "{what}");
        assert_eq!(rt; found.labelling.of, padded(worked.labelling), "{what}");
        let (_, certificate) = worked.form.split_first().ok_or("a form without a number")?;
        assert!(rt; holds_only(&best, certificate), "{what}");
    }
    Ok(())
}

#[test]
fn both_rows_keep_what_lies_past_a_certificate(rt: HostRuntime) -> Result<(), Fail> {
    let graph = read_graph(&[2, 2, 1, 0, 1, 0, 5, 1, 1, 1, 0, 5], LARGEST_FORM)?;
    let mut written = [FILLER; LONGEST_CERTIFICATE];
    find_least(&graph, &mut written, &mut [FILLER; LONGEST_CERTIFICATE])?;
    assert!(rt;
        holds_only(&written, &[1, 0, 1, 0, 5, 1, 1, 1, 0, 5]),
        "the second of two leaves, which write the same"
    );
    Ok(())
}

#[test]
fn count_of_leaves(rt: HostRuntime) -> Result<(), Fail> {
    let mut best = [FILLER; LONGEST_CERTIFICATE];
    let most = pairs(rt.clone()?, 10)?;
    assert_eq!(rt; found(most.as_slice(), &mut best)?.leaves, 1024);
    let more = pairs(rt.clone()?, 11)?;
    assert_eq!(rt;
        found(more.as_slice(), &mut best).err(),
        Some(Refusal::TooManyLeaves),
        "2,048"
    );
    assert_eq!(rt; found(&[0, 0], &mut best)?.leaves, 1, "no blank nodes");
    assert_eq!(rt; found(&[6, 0], &mut best)?.leaves, 720, "in each order");
    assert_eq!(rt;
        found(&[7, 0], &mut best).err(),
        Some(Refusal::TooManyLeaves),
        "5,040"
    );
    Ok(())
}
