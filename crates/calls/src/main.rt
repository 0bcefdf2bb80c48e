// Makes calls of the library with numbers up to 2^64 - 1, which four bytes do not hold. A line is the name of the call, how many numbers it is lent
// for its answer, and the numbers that it is given, in decimal:
//
//     form_of ROOM GRAPH..
//     labelled_form ROOM GRAPH..
//     read_form ROOM FORM..
//     compare 0 LENGTH FIRST.. SECOND..
//     check_mapping 0 LENGTH FIRST.. LENGTH SECOND.. PLACES..
//
// A graph is encoded, and has its length before it where something comes behind. What comes back is a line: the numbers that were written, and behind
// those of `labelled_form` the labelling, or the refusal; what is told of two graphs; and of a mapping `accepted` or the refusal. Where other
// numbers than those of the answer were touched, the line says so instead.
#![tactic(auto)]

use anyhow::{Context, bail};
use canonical_form::form::{Reply, form_of, labelled_form};
use canonical_form::reading::read_form;
use isomorphism::check::check_mapping;
use isomorphism::compare::compare;
use std::alloc::{AllocError, Global};
use std::io::{BufRead, BufReader, BufWriter, Write};

fn main(rt: HostRuntime) -> anyhow::Result<()> {
    let heap = rt.alloc();
    let mut out = BufWriter::new(heap, rt.stdout())?;
    for line in BufReader::new(heap, rt.stdin())?.lines(heap) {
        let line = line?;
        let answer = make_call(heap, line.as_str())?;
        writeln!(out, "{answer}")?;
    }
    out.flush()?;
    Ok(())
}

// Makes the call in a line, and tells what came back.
fn make_call(heap: Global, line: &str) -> anyhow::Result<String> {
    let (name, numbers) = line.split_once(' ').context("a line with no numbers")?;
    let mut given: Vec<u64> = Vec::new(heap);
    for word in numbers.split(' ') {
        given.push(word.parse()?)?;
    }
    let (room, given) = given.as_slice().split_first().context("no room")?;
    let mut lent = marks(heap, usize::try_from(*room)?)?;
    match name {
        "form_of" => {
            let reply = form_of(given, lent.as_mut_slice());
            Ok(told(heap, reply, lent.as_slice())?)
        }
        "labelled_form" => {
            let found = labelled_form(given, lent.as_mut_slice());
            let line = told(heap, found.map(|form| form.length), lent.as_slice())?;
            match found {
                Ok(form) => Ok(format!(in heap; "{line} {:?}", form.labelling.of)?),
                Err(_) => Ok(line),
            }
        }
        "read_form" => {
            let reply = read_form(given, lent.as_mut_slice());
            Ok(told(heap, reply, lent.as_slice())?)
        }
        "compare" => {
            let (first, second) = split_counted(given).context("no first graph")?;
            Ok(compare(first, second).to_string(heap)?)
        }
        "check_mapping" => {
            let (first, rest) = split_counted(given).context("no first graph")?;
            let (second, places) = split_counted(rest).context("no second graph")?;
            match check_mapping(first, second, places) {
                Ok(()) => Ok(String::from_str(heap, "accepted")?),
                Err(refusal) => Ok(refusal.to_string(heap)?),
            }
        }
        _ => bail!("no such call: {name}"),
    }
}

// As many numbers as the first one says, and what is behind them.
fn split_counted(numbers: &[u64]) -> Option<(&[u64], &[u64])> {
    let (length, numbers) = numbers.split_first()?;
    numbers.split_at_checked(usize::try_from(*length).ok()?)
}

// What a call replied, or that it touched more than that.
fn told(heap: Global, reply: Reply, lent: &[u64]) -> Result<String, AllocError> {
    let length = reply.unwrap_or(0);
    let Some((written, others)) = lent.split_at_checked(length) else {
        return String::from_str(heap, "more numbers than were lent");
    };
    if !others
        .iter()
        .enumerate()
        .all(|(place, number)| *number == mark(length + place))
    {
        return String::from_str(heap, "touched what is no part of the answer");
    }
    match reply {
        Ok(_) => format!(in heap; "{written:?}"),
        Err(refusal) => refusal.to_string(heap),
    }
}

// So many numbers that no answer has.
fn marks(heap: Global, room: usize) -> Result<Vec<u64>, AllocError> {
    (0..room).map(mark).collect(heap)
}

// Each is different from the others, so that it shows where one was moved, too.
fn mark(place: usize) -> u64 {
    u64::MAX - place as u64
}
