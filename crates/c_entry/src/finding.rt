ghost use Rattle.std.specs.Prelude.{◌≡◌, ◌≤◌, length};
ghost use Rattle.theory.specs.CanonicalForm.{form};
ghost use Rattle.theory.specs.Encoding.{graph_in, form_verdict};
ghost use Rattle.c_entry.specs.Answers.{form_told, form_left};

use canonical_form::form::form_of;

// How many numbers a form has, with 0 for no refusal, or the number of a refusal and its place.
#[repr(C)]
#[derive(Clone, Copy)]
pub struct Answer {
    pub refusal: u64,
    pub value: u64,
}

// Writes the form of an encoded graph to the beginning of `out`. On a refusal `out` is as it was.
#[unsafe(no_mangle)]
pub extern "C" fn collwyfa_form(graph: &[u64], out: &mut [u64]) -> Answer
    ensures told { result ≡ form_told (form_verdict graph.now (length out.old)) (form (graph_in graph.now)) }
    ensures within { result.refusal ≡ 0 → result.value ≤ length out.new }
    ensures left { out.new ≡ form_left (form_verdict graph.now (length out.old)) (form (graph_in graph.now)) out.old }
{
    match form_of(graph, out) {
        Ok(length) => Answer {
            refusal: 0,
            value: length as u64,
        },
        Err(refusal) => Answer {
            refusal: refusal.number(),
            value: refusal.place(),
        },
    }
}
