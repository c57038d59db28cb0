// Show row: which obligation has a number, and where the row of one of its hypotheses stands, in what role and whose it is.
ghost use Rattle.std.specs.Prelude.{IfOk, ◌≡◌, ◌+◌, ◌≤◌, length, take, drop};
ghost use Rattle.formats.specs.ModelSheet.{stated};
ghost use Rattle.papers.specs.Paper.{of_paper};
ghost use Rattle.rules.specs.Beside.{find_hypothesis, show_answer, show_part};
ghost use Rattle.queries.specs.Finding.{which_obligation, which_refused, group_which, row_found, hypothesis_located, hypothesis_answer, RowInside, which_of, OpensTo, PartIs, sought_one_for, row_answer, stood_answer, row_length, shown_as};
ghost use Rattle.rules.specs.Roles.{owned};

use crate::find::find;
use crate::rows::sought_row;
use crate::{Located, RowFound, Shown, Sought, Which};
use formats::Limits;
use models::layout::{INDEX_LENGTH, Index, LOCATIONS_AT, VARIABLES_AT, VERSION_AT};
use papers::Paper;
use papers::answers::second_refused;
use papers::opening::open_paper;
use rules::Answer;
use second_sheets::certificate::read_regions;
use second_sheets::ranges::{REGIONS_LENGTH, Regions};

// Why there is no obligation or hypothesis with a number.
const NOT_THERE: Answer = Answer {
    number: 5,
    sheet: 2,
    place: 0,
    done: 0,
    score: 0,
};

// Which obligation it is, with the second sheet and its length.
fn told(size: u32, kind: u32, subject: u32, line: u32) -> Which
    ensures { result ≡ record { number = 0; sheet = 1; place = size; kind = kind; subject = subject; line = line } }
{
    Which {
        number: 0,
        sheet: 1,
        place: size,
        kind,
        subject,
        line,
    }
}

// Which obligation a location's group has at a line.
fn group_which(size: u32, location: u32, g: u32, line: u32) -> Which
    ensures { result ≡ group_which size location g line }
{
    match g {
        0 | 1 => told(size, g, location, line),
        _ => told(size, 2, location, g - 2),
    }
}

// Which obligation was found.
fn sought_which(paper: Paper, sought: Sought) -> Which
    ensures { result ≡ which_of (length paper.entry.second.now) (of_paper sought_one_for paper.entry sought) }
{
    let size = paper.second.len() as u32;
    match sought {
        Sought::AtLocation(location, g, line) => group_which(size, location, g, line),
        Sought::AtJoint(jump) => told(size, 3, jump.number, jump.line),
    }
}

// Why no obligation was found.
fn no_which(refusal: Answer) -> Which
    ensures { result ≡ which_refused refusal.number refusal.sheet refusal.place }
{
    Which {
        number: refusal.number,
        sheet: refusal.sheet,
        place: refusal.place,
        kind: 0,
        subject: 0,
        line: 0,
    }
}

// Both sheets read: the stated limits and the model go first, then the second sheet up to the end of its regions.
fn open_regions(
    model: &[u8],
    second: &[u8],
    index: &mut Index,
    regions: &mut Regions,
    limits: Limits,
) -> Result<(), Answer>
    ensures { OpensTo limits model.now index.new second.now regions.new result }
{
    let body = open_paper(model, second, 2, index, limits)?;
    let version = index[VERSION_AT] as u32;
    let n = index[VARIABLES_AT] as usize;
    let locations = index[LOCATIONS_AT] as u32;
    match read_regions(second, body, version, n, locations, regions) {
        Ok(_) => Ok(()),
        Err(refusal) => Err(second_refused(refusal, 0, 0)),
    }
}

// Which obligation has a number.
pub fn which(model: &[u8], second: &[u8], o: u32, limits: Limits) -> Which
    ensures { result ≡ which_obligation limits model.now second.now o }
{
    let mut index = [0u16; INDEX_LENGTH];
    let mut regions = [0u16; REGIONS_LENGTH];
    if let Err(refusal) = open_regions(model, second, &mut index, &mut regions, limits) {
        return no_which(refusal);
    }
    let paper = Paper {
        model,
        index: &index,
        second,
        regions: &regions,
    };
    match find(paper, o) {
        Some(sought) => sought_which(paper, sought),
        None => no_which(NOT_THERE),
    }
}

// Where the row of a hypothesis stands, with its role and owner; and that it lies inside its sheet.
pub fn find_row(
    model: &[u8],
    second: &[u8],
    o: u32,
    h: u32,
    limits: Limits,
) -> Result<Located, Answer>
    ensures value { result ≡ hypothesis_located limits model.now second.now o h }
    ensures row_inside { IfOk result (λ located. RowInside model.now second.now located.row) }
    ensures row_value { row_answer result ≡ show_answer limits model.now second.now o h }
{
    let mut index = [0u16; INDEX_LENGTH];
    let mut regions = [0u16; REGIONS_LENGTH];
    open_regions(model, second, &mut index, &mut regions, limits)?;
    let paper = Paper {
        model,
        index: &index,
        second,
        regions: &regions,
    };
    let sought = find(paper, o).ok_or(NOT_THERE)?;
    sought_row(paper, sought, h).ok_or(NOT_THERE)
}

// What is told of a hypothesis by its row, role and owner.
fn shown(located: Located) -> Shown
    ensures { result ≡ shown_as (stood_answer located.row) (row_length located.row) (owned located.role located.owner) }
{
    let (sheet, place, size) = match located.row {
        RowFound::InModel(place, size) => (0, place, size),
        RowFound::InSecond(place, size) => (1, place, size),
        RowFound::Nowhere => (2, 0, 0),
    };
    Shown {
        number: 0,
        sheet,
        place,
        size,
        role: located.role,
        owner: located.owner,
    }
}

// A hypothesis by its number: where its row stands, how many bytes it has, its role, and the component or variable that it belongs to.
pub fn show_hypothesis(model: &[u8], second: &[u8], o: u32, h: u32, limits: Limits) -> Shown
    ensures { result ≡ hypothesis_answer limits model.now second.now o h }
{
    match find_row(model, second, o, h, limits) {
        Ok(located) => shown(located),
        Err(refusal) => Shown {
            number: refusal.number,
            sheet: refusal.sheet,
            place: refusal.place,
            size: 0,
            role: 0,
            owner: 0,
        },
    }
}

// The sister of show row: the number, with the row's sheet and offset.
pub fn show_answer(model: &[u8], second: &[u8], o: u32, h: u32, limits: Limits) -> Answer
    ensures { result ≡ show_answer limits model.now second.now o h }
{
    let shown = show_hypothesis(model, second, o, h, limits);
    Answer {
        number: shown.number,
        sheet: shown.sheet,
        place: shown.place,
        done: 0,
        score: 0,
    }
}

// So many bytes of a sheet from a place on.
fn part(sheet: &[u8], place: u32, size: u32) -> &[u8]
    requires { place + size ≤ length sheet.now }
    ensures { result.now ≡ take size (drop place sheet.now) }
{
    let from = place as usize;
    let to = from + size as usize;
    &sheet[from..to]
}

// Show row: the bytes of one hypothesis in whichever sheet holds it, or no bytes.
pub fn show_row<'a>(
    model: &'a [u8],
    second: &'a [u8],
    o: u32,
    h: u32,
    locations: u32,
    joints: u32,
) -> &'a [u8]
    ensures result_value { result.now ≡ show_part (stated locations joints) model.now second.now o h }
    ensures part_is { PartIs model.now second.now (row_found (find_hypothesis (stated locations joints) model.now second.now o h)) result.now }
{
    let limits = Limits { locations, joints };
    let Ok(located) = find_row(model, second, o, h, limits) else {
        return &model[..0];
    };
    match located.row {
        RowFound::InModel(place, size) => part(model, place, size),
        RowFound::InSecond(place, size) => part(second, place, size),
        RowFound::Nowhere => &model[..0],
    }
}
