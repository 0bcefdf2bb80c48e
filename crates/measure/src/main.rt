// Takes times. What was done goes to standard output, and is the same on every machine, but for the line that compares the orders; how long it
// took goes to standard error.
#![tactic(auto)]

use crate::orders::put_all;
use crate::timing::Timing;
use anyhow::Error;
use canonical_form::form::form_of;
use graph::encoded::MOST_BLANK_NODES;
use graph::simple::reading::read_graph;
use graph::simple::{LARGEST_FORM, SimpleGraph};
use isomorphism::check::check_mapping;
use isomorphism::compare::{Comparison, compare};
use refinement::colouring::Colouring;
use refinement::refiner::Refiner;
use stability::stable;
use std::{array, io};

mod orders;
mod random;
mod timing;

const BATCHES: u64 = 100;

fn main(rt: HostRuntime) -> anyhow::Result<()> {
    time_orders(&rt)?;
    println!(rt; "a graph of 6 blank nodes and 18 triples")?;
    let mut small = [0; 92];
    random::write_graph(&mut small, 6);
    time_steps(&rt, &small)?;
    println!(rt; "a graph of 32 blank nodes and 250 triples")?;
    let mut large = [0; 1252];
    random::write_graph(&mut large, 32);
    time_steps(&rt, &large)
}

// What is done on the way to the form of an encoded graph, then all of it, and what is done with two graphs.
fn time_steps(rt: &HostRuntime, encoded: &[u64]) -> anyhow::Result<()> {
    time(rt, "different triples read", || {
        read_graph(encoded, LARGEST_FORM).map_or(0, |graph| graph.triples().len())
    })?;
    let graph = read_graph(encoded, LARGEST_FORM).map_err(Error::msg)?;
    time(rt, "blank nodes whose incidences are found", || {
        refiner_of(&graph).blanks()
    })?;
    let mut refiner = refiner_of(&graph);
    time(rt, "is the greatest colour after one round", || {
        greatest_colour(refiner.refine(Colouring::uniform()))
    })?;
    time(rt, "is the greatest stable colour", || {
        greatest_colour(stable(&mut refiner, Colouring::uniform()))
    })?;
    let mut out = [0; LARGEST_FORM];
    time(rt, "numbers of the form found", || {
        form_of(encoded, &mut out).unwrap_or(0)
    })?;
    time(rt, "places when it is compared with itself", || {
        places_of(&compare(encoded, encoded))
    })?;
    let itself: [u64; MOST_BLANK_NODES] = array::from_fn(|node| node as u64);
    time(rt, "mapping of it to itself accepted", || {
        usize::from(check_mapping(encoded, encoded, &itself).is_ok())
    })?;
    Ok(())
}

fn places_of(comparison: &Comparison) -> usize {
    match comparison {
        Comparison::Isomorphic(mapping) => mapping.places().len(),
        Comparison::NotIsomorphic | Comparison::Refused(_) => 0,
    }
}

// Not inlined where it is timed: only the count of blank nodes is told there, and what they see is to be found all the same.
#[inline(never)]
fn refiner_of(graph: &SimpleGraph) -> Refiner<'_> {
    Refiner::new(graph)
}

// The check proves of this `as`, and of each other one here, that it loses nothing; there is no `From` between usize and u64.
fn greatest_colour(colouring: Colouring) -> usize {
    colouring.of.into_iter().max().unwrap_or(0) as usize
}

// Rows put into an index in order take at most three times what they take in random order: a tree that is not kept shallow would take
// many times as long (docs/PERFORMANCE.md). Batches of the three orders take turns, so that what slows the machine for a while slows no order alone.
fn time_orders(rt: &HostRuntime) -> io::Result<()> {
    let rising = orders::rising();
    let falling = orders::falling();
    let shuffled = orders::shuffled();
    let mut up = Timing::new();
    let mut down = Timing::new();
    let mut random = Timing::new();
    for _ in 0..BATCHES {
        up.batch(rt, &mut || put_all(&rising))?;
        down.batch(rt, &mut || put_all(&falling))?;
        random.batch(rt, &mut || put_all(&shuffled))?;
    }
    up.tell(rt, "rows put in from the least on")?;
    down.tell(rt, "rows put in from the greatest on")?;
    random.tell(rt, "rows put in in random order")?;
    if up.best.max(down.best) / 3 <= random.best {
        println!(rt; "in order takes at most three times what random order takes")
    } else {
        println!(rt; "in order takes more than three times what random order takes")
    }
}

// Does the work in many batches, and tells what came of it.
fn time<F: FnMut() -> usize>(rt: &HostRuntime, what: &str, mut work: F) -> io::Result<()>
    requires { (f : _) → F.pre f }
{
    let mut timing = Timing::new();
    for _ in 0..BATCHES {
        timing.batch(rt, &mut work)?;
    }
    timing.tell(rt, what)
}
