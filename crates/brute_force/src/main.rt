// Makes graphs with few blank nodes from a seed, in pairs, and tries all mappings of one to the other. What comes of that, and of a search of its own
// over the definitions, is compared with what the library says: forms, mappings, leaves, what is read back, colours and refusals. A line is printed
// for each family of graphs, and one for all. The first disagreement ends the program, and so does a total that is too small to tell much.
#![tactic(auto)]

use crate::agreement::check_pair;
use crate::counts::Counts;
use crate::families::{FAMILIES, Family};
use crate::mappings::Mappings;
use crate::random::Random;
use crate::refusals::{REFUSED_FAMILIES, RefusedFamily};
use anyhow::{bail, ensure};
use std::alloc::Global;

mod agreement;
mod answers;
mod counts;
mod drawing;
mod families;
mod keys;
mod mappings;
mod plain;
mod random;
mod refusals;
mod shapes;
mod side;
mod signatures;
mod tree;
mod twins;

const SEED: u64 = 20261127;

// How many pairs must be isomorphic at least, how many not isomorphic with the same stable colours, and how many refused.
const LEAST_ISOMORPHIC: u64 = 1000;

const LEAST_SAME_COLOURS: u64 = 1000;

const LEAST_REFUSED: u64 = 200;

fn main(rt: HostRuntime) -> anyhow::Result<()> {
    let heap = rt.alloc();
    let mappings = Mappings::new(heap)?;
    let mut random = Random::new(SEED);
    let mut total = Counts::none();
    for family in &FAMILIES {
        let counts = try_family(heap, &mappings, &mut random, family)?;
        let name = family.name;
        println!(rt; "{name}: {counts}")?;
        total.add(&counts);
    }
    for family in &REFUSED_FAMILIES {
        let counts = try_refused(heap, &mut random, family)?;
        let name = family.name;
        println!(rt; "{name}: {counts}")?;
        total.add(&counts);
    }
    println!(rt; "all agree: {total}")?;
    check_total(&total)
}

fn try_family(
    heap: Global,
    mappings: &Mappings,
    random: &mut Random,
    family: &Family,
) -> anyhow::Result<Counts> {
    let mut counts = Counts::none();
    for index in 0..family.pairs {
        let pair = family.pair(heap, random)?;
        match check_pair(heap, mappings, &pair.first, &pair.second) {
            Ok(found) => counts.count_found(found),
            Err(error) => {
                let name = family.name;
                bail!("{name}, pair {index}: {error}")
            }
        }
    }
    Ok(counts)
}

fn try_refused(
    heap: Global,
    random: &mut Random,
    family: &RefusedFamily,
) -> anyhow::Result<Counts> {
    let mut counts = Counts::none();
    for index in 0..family.pairs {
        match family.check(heap, random) {
            Ok(is_refused) => counts.count_answered(is_refused),
            Err(error) => {
                let name = family.name;
                bail!("{name}, pair {index}: {error}")
            }
        }
    }
    Ok(counts)
}

// Guards against a change of the families or of the seed that leaves too few pairs which tell much.
fn check_total(total: &Counts) -> anyhow::Result<()> {
    let Counts {
        isomorphic,
        same_colours,
        refused,
        ..
    } = *total;
    ensure!(
        isomorphic >= LEAST_ISOMORPHIC,
        "only {isomorphic} pairs are isomorphic"
    );
    ensure!(
        same_colours >= LEAST_SAME_COLOURS,
        "only {same_colours} pairs are not isomorphic with the same stable colours"
    );
    ensure!(refused >= LEAST_REFUSED, "only {refused} pairs are refused");
    Ok(())
}
