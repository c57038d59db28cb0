// Marking a certificate: its regions, the proofs of all obligations, and its end.
ghost use Rattle.std.specs.Prelude.{◌≡◌, ◌≤◌, length};
ghost use Rattle.formats.specs.Locations.{location_count};
ghost use Rattle.formats.specs.Joint.{joints};
ghost use Rattle.models.specs.Index.{components_from};
ghost use Rattle.rules.specs.Marking.{passed, close_certificate, mark_certificate};
ghost use Rattle.papers.specs.Paper.{of_paper, Accepted, obligations_for};
ghost use Rattle.certificates.specs.Passed.{stopped_answer, marked_body, marked_rest};

use crate::obligations::mark_obligations;
use crate::{Failed, Marking};
use fields::header::finished;
use formats::Limits;
use models::layout::{INDEX_LENGTH, Index, VARIABLES_AT, VERSION_AT};
use papers::Paper;
use papers::answers::{second_accepted, second_refused};
use papers::opening::{locations_of, open_paper};
use rules::Answer;
use scores::counting::obligation_count;
use scores::rounding::refused_score;
use second_sheets::certificate::read_regions;
use second_sheets::ranges::REGIONS_LENGTH;

// The answer where a proof was refused. Only then are the obligations counted, for the score.
fn stop_certificate(paper: Paper, locations: u32, failed: Failed) -> Answer
    requires locations_value { (locations ≡ location_count (components_from paper.model.now paper.index.now)) × (length (joints (components_from paper.model.now paper.index.now)) ≤ 4096) }
    requires place_bound { (failed.refusal.1 ≤ 32768) × (failed.done ≤ 1000000) }
    ensures { result ≡ stopped_answer failed (length (of_paper obligations_for paper.entry locations)) }
{
    let total = obligation_count(paper, locations);
    let score = refused_score(failed.done, total);
    second_refused(failed.refusal, failed.done, score)
}

// The end of a certificate whose proofs have all passed: no bytes are left.
fn end_certificate(second: &[u8], marked: Marking) -> Answer
    requires { (length second.now ≤ 32768) × (marked.place ≤ length second.now) }
    ensures { result ≡ close_certificate marked.done second.now (passed tt marked.place marked.done) }
{
    match finished(second, marked.place) {
        Ok(_) => second_accepted(second, marked.done),
        Err(refusal) => second_refused(refusal, marked.done, 99),
    }
}

// A certificate after its regions: its proofs, then its end.
fn mark_rest(paper: Paper, locations: u32, at: usize) -> Answer
    requires locations_value { (locations ≡ location_count (components_from paper.model.now paper.index.now)) × (length (joints (components_from paper.model.now paper.index.now)) ≤ 4096) }
    requires at_in_bounds { at ≤ length paper.second.now }
    ensures { result ≡ of_paper marked_rest paper.entry locations at }
{
    match mark_obligations(paper, locations, at) {
        Ok(marked) => end_certificate(paper.second, marked),
        Err(failed) => stop_certificate(paper, locations, failed),
    }
}

// A certificate from its own fields on: its regions, then its proofs and its end.
fn mark_body(model: &[u8], index: &Index, second: &[u8], body: usize) -> Answer
    requires accepted { Accepted model.now index.now }
    requires body_in_bounds { (body ≤ length second.now) × (length second.now ≤ 32768) }
    ensures { result ≡ marked_body model.now index.now second.now body }
{
    let locations = locations_of(model, index);
    let mut regions = [0u16; REGIONS_LENGTH];
    match read_regions(
        second,
        body,
        index[VERSION_AT] as u32,
        index[VARIABLES_AT] as usize,
        locations,
        &mut regions,
    ) {
        Ok(place) => {
            let paper = Paper {
                model,
                index,
                second,
                regions: &regions,
            };
            mark_rest(paper, locations, place)
        }
        Err(refusal) => second_refused(refusal, 0, 0),
    }
}

// Marks a certificate: the stated limits and the model go first, then the certificate sheet.
pub fn mark_certificate(model: &[u8], second: &[u8], limits: Limits) -> Answer
    ensures { result ≡ mark_certificate limits model.now second.now }
{
    let mut index = [0u16; INDEX_LENGTH];
    match open_paper(model, second, 2, &mut index, limits) {
        Ok(body) => mark_body(model, &index, second, body),
        Err(refused) => refused,
    }
}
