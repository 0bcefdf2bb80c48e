use rows::part::Part;
use rows::row_index::RowIndex;

#[test]
fn opening_example(rt: HostRuntime) {
    let rows = [3, 1, 2, 9, 3, 1];
    let mut index = RowIndex::<3>::new(&rows);
    assert!(rt; index.put(0, 2) && index.put(2, 4) && index.put(4, 6));
    let mut out = [0; 6];
    assert_eq!(rt; index.write_all(&mut out), 6);
    assert_eq!(rt; out, [2, 9, 3, 1, 3, 1]);
    assert_eq!(rt;
        index.in_order().as_slice(),
        [&rows[2..4], &rows[0..2]].as_slice()
    );
    assert_eq!(rt;
        index.parts_in_order().as_slice(),
        [Part { start: 2, end: 4 }, Part { start: 0, end: 2 }].as_slice()
    );
}

// Three rows of two numbers, the first and the last the same; one of three numbers that the second row begins; two numbers more.
const ROWS: [u64; 11] = [3, 1, 2, 9, 3, 1, 2, 9, 0, 7, 7];

#[test]
fn rows_of_any_width(rt: HostRuntime) {
    let mut index = RowIndex::<5>::new(&ROWS);
    assert!(rt; index.put(0, 2) && index.put(2, 4) && index.put(4, 6) && index.put(6, 9));
    assert_eq!(rt; index.distinct(), 3);
    let mut all = [0; 12];
    assert_eq!(rt; index.write_all(&mut all), 9);
    assert_eq!(rt; all, [2, 9, 2, 9, 0, 3, 1, 3, 1, 0, 0, 0]);
    let rows = index.in_order();
    assert_eq!(rt; rows.len(), 3);
    assert_eq!(rt;
        rows.as_slice(),
        [&ROWS[2..4], &ROWS[6..9], &ROWS[0..2]].as_slice()
    );
    let parts = index.parts_in_order();
    assert_eq!(rt; parts.len(), 3);
    assert_eq!(rt; [parts[0].start, parts[1].start, parts[2].start], [2, 6, 0]);
    assert_eq!(rt; [parts[0].end, parts[1].end, parts[2].end], [4, 9, 2]);
}

#[test]
fn refuses(rt: HostRuntime) {
    let mut index = RowIndex::<2>::new(&ROWS);
    assert!(rt; index.put(0, 2));
    assert!(rt; !index.put(2, 4), "full");
    assert!(rt; index.put(4, 6), "the same row once more");
    assert!(rt; !index.put(9, 12), "past the end");
    assert!(rt; !index.put(3, 2), "backward");
    assert_eq!(rt; index.distinct(), 1);
}

#[test]
fn empties(rt: HostRuntime) {
    let mut index = RowIndex::<2>::new(&ROWS);
    assert!(rt; index.put(0, 2));
    index.clear();
    assert_eq!(rt; index.distinct(), 0);
    assert!(rt; index.put(9, 9), "the empty row");
    assert_eq!(rt; index.distinct(), 1);
    assert!(rt; !RowIndex::<0>::new(&ROWS).put(0, 2), "no node at all");
    assert!(rt;
        !RowIndex::<1>::new(&ROWS).put(0, 2),
        "only the node that is none"
    );
}

#[test]
fn writes_what_fits(rt: HostRuntime) {
    let mut index = RowIndex::<3>::new(&ROWS);
    assert!(rt; index.put(0, 2) && index.put(2, 4));
    let mut short = [5; 3];
    assert_eq!(rt; index.write_all(&mut short), 3);
    assert_eq!(rt; short, [2, 9, 3]);
}
