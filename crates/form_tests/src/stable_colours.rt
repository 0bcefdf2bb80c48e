use crate::worked::{WORKED, padded};
use graph::simple::LARGEST_FORM;
use graph::simple::reading::read_graph;
use refinement::colouring::Colouring;
use refinement::refiner::Refiner;
use stability::stable;
use std::test::Fail;

// The stable colours of an encoded graph, from blank nodes that all have one colour.
fn stable_colours(graph: &[u64]) -> Result<[u64; 32], Fail> {
    let graph = read_graph(graph, LARGEST_FORM)?;
    Ok(stable(&mut Refiner::new(&graph), Colouring::uniform()).of)
}

#[test]
fn opening_example(rt: HostRuntime) -> Result<(), Fail> {
    assert_eq!(rt; stable_colours(&[2, 1, 1, 0, 7, 0, 5])?, padded(&[1, 0]));
    Ok(())
}

#[test]
fn worked_examples(rt: HostRuntime) -> Result<(), Fail> {
    for worked in WORKED {
        assert_eq!(rt;
            stable_colours(worked.graph)?,
            padded(worked.colours),
            "{}",
            worked.what
        );
    }
    Ok(())
}

#[test]
fn opening_example_of_refinement(rt: HostRuntime) -> Result<(), Fail> {
    let graph = read_graph(
        &[4, 3, 1, 0, 3, 1, 1, 1, 1, 3, 1, 2, 1, 2, 3, 1, 3],
        LARGEST_FORM,
    )?;
    let mut refiner = Refiner::new(&graph);
    assert_eq!(rt; refiner.blanks(), 4);
    let mut start = Colouring::uniform();
    start.of[4] = 9;
    let refined = refiner.refine(start).of;
    assert_eq!(rt;
        [refined[0], refined[1], refined[2], refined[3]],
        [0, 1, 1, 2]
    );
    assert_eq!(rt; refined[4], 9, "past the blank nodes nothing changes");
    Ok(())
}
