use graph::refusal::Refusal;
use graph::simple::LARGEST_FORM;
use graph::simple::reading::{read_graph, read_rows};
use graph::triple::{Term, Triple};
use std::test::Fail;

// Two blank nodes, and three triples of which one is repeated and none is in its place.
const GRAPH: [u64; 22] = [
    2, 4, 1, 1, 1, 0, 5, 1, 1, 2, 1, 0, 1, 0, 1, 0, 5, 1, 1, 1, 0, 5,
];

fn triple(subject: Term, predicate: u32, object: Term) -> Triple {
    Triple {
        subject,
        predicate,
        object,
    }
}

#[test]
fn each_triple_once_and_in_order(rt: HostRuntime) -> Result<(), Fail> {
    let graph = read_graph(&GRAPH, 16)?;
    assert_eq!(rt; graph.blanks(), 2);
    assert_eq!(rt;
        graph.triples(),
        [
            triple(Term::Blank(0), 1, Term::Named(5)),
            triple(Term::Blank(1), 1, Term::Named(5)),
            triple(Term::Blank(1), 2, Term::Blank(0)),
        ]
        .as_slice()
    );
    Ok(())
}

#[test]
fn rows_alone(rt: HostRuntime) -> Result<(), Fail> {
    // x1 2 x0, and x0 1 5 twice; what is left behind is no row.
    let rows = [1, 1, 2, 1, 0, 1, 0, 1, 0, 5, 1, 0, 1, 0, 5, 9, 9, 9, 9];
    let graph = read_rows(3, &rows)?;
    assert_eq!(rt; graph.blanks(), 3);
    assert_eq!(rt;
        graph.triples(),
        [
            triple(Term::Blank(0), 1, Term::Named(5)),
            triple(Term::Blank(1), 2, Term::Blank(0)),
        ]
        .as_slice()
    );
    assert_eq!(rt; read_rows(1, &rows).err(), Some(Refusal::NoTriple(0)));
    assert_eq!(rt; read_rows(0, &[])?.triples().len(), 0);
    Ok(())
}

fn refusal(graph: &[u64], room: usize) -> Option<Refusal> {
    read_graph(graph, room).err()
}

#[test]
fn too_little_room(rt: HostRuntime) {
    assert_eq!(rt; refusal(&GRAPH, 16), None);
    assert_eq!(rt; refusal(&GRAPH, 15), Some(Refusal::TooLittleRoom(15)));
    assert_eq!(rt; refusal(&[0, 0], 1), None);
    assert_eq!(rt; refusal(&[0, 0], 0), Some(Refusal::TooLittleRoom(0)));
    assert_eq!(rt;
        refusal(&[0], 0),
        Some(Refusal::CutShort(1)),
        "number 1 is told first"
    );
}

// The rows of so many triples, whose subjects are the names from 0 to the last one, and then that one again. The loop counts names, which are
// numbers.
fn many_rows(rt: HostRuntime, written: u64, last: u64) -> Result<Vec<u64>, Fail> {
    let mut rows = Vec::new(rt.alloc());
    for name in 0..written {
        rows.extend_from_slice(&[0, name.min(last), 7, 0, 7])?;
    }
    Ok(rows)
}

// The graph of so many triples that has these rows and no blank node.
fn many(rt: HostRuntime, written: u64, last: u64) -> Result<Vec<u64>, Fail> {
    let mut graph = vec![in rt.alloc(); 0, written]?;
    graph.extend_from_slice(many_rows(rt, written, last)?.as_slice())?;
    Ok(graph)
}

#[test]
fn too_many_different(rt: HostRuntime) -> Result<(), Fail> {
    let most = many(rt.clone()?, 65536, 255)?;
    assert_eq!(rt; refusal(most.as_slice(), LARGEST_FORM), None);
    assert_eq!(rt;
        refusal(most.as_slice(), 1280),
        Some(Refusal::TooLittleRoom(1280))
    );
    let more = many(rt, 257, 256)?;
    assert_eq!(rt;
        refusal(more.as_slice(), 0),
        Some(Refusal::TooManyDifferentTriples)
    );
    Ok(())
}

#[test]
fn too_many_different_rows(rt: HostRuntime) -> Result<(), Fail> {
    let most = many_rows(rt.clone()?, 65536, 255)?;
    assert_eq!(rt; read_rows(0, most.as_slice())?.triples().len(), 256);
    let mut more = many_rows(rt, 257, 256)?;
    assert_eq!(rt;
        read_rows(0, more.as_slice()).err(),
        Some(Refusal::TooManyDifferentTriples)
    );
    more.pop();
    assert_eq!(rt;
        read_rows(0, more.as_slice())?.triples().len(),
        256,
        "the last row is not whole"
    );
    Ok(())
}
