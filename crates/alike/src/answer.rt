ghost use Rattle.std.specs.Prelude.{◌≡◌, ◌<◌, map, length, IfOk, Some};
ghost use Rattle.std.specs.List.{list_all};
ghost use Rattle.std.specs.Process.{exit_status};
ghost use Rattle.rows.specs.Written.{held};
ghost use Rattle.isomorphism.specs.Compared.{told, line};
ghost use Rattle.alike.specs.Answer.{of_two, in_twos, alike, status};

use isomorphism::compare::{Comparison, compare};
use std::alloc::{AllocError, Global};
use std::fmt;
use std::process::ExitCode;

// An answer for each two graphs.
pub fn answers(heap: Global, graphs: &[&[u64]]) -> Result<Vec<Comparison>, AllocError>
    ensures told { IfOk result (λ v. map told v.items ≡ in_twos (held graphs.now)) }
    ensures printed { IfOk result (λ v. map ⟦<Comparison as fmt::Display>⟧.output v.items ≡ map (λ w. Some (line w)) (in_twos (held graphs.now))) }
{
    graphs.chunks(2).map(compare_two).collect(heap)
}

// Where the number of graphs is odd, the last one is compared with the empty row.
#[tactic(auto, using(crate::proofs::Twos::of_both, crate::proofs::Twos::of_one))]
fn compare_two(two: &[&[u64]]) -> Comparison
    requires { 0 < length two.now }
    ensures { told result ≡ of_two (held two.now) }
{
    match two {
        [first, second, ..] => compare(first, second),
        _ => compare(two[0], &[]),
    }
}

// The status to end with: a failure, where it is asked whether all are alike, and one is not.
#[tactic(auto, using(crate::proofs::Alike::all_told))]
pub fn status(asked: bool, answers: &[Comparison]) -> ExitCode
    ensures { exit_status result ≡ status asked (map told answers.now) }
{
    if asked && !all_alike(answers) {
        ExitCode::FAILURE
    } else {
        ExitCode::SUCCESS
    }
}

fn all_alike(answers: &[Comparison]) -> bool
    ensures { result ≡ list_all (λ a. alike (told a)) answers.now }
{
    answers
        .iter()
        .all(|answer| matches!(answer, Comparison::Isomorphic(_)))
}
