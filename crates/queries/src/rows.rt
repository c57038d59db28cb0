// Where the row of a hypothesis stands: the table of its obligation, built as for marking, has the place.
ghost use Rattle.std.specs.Prelude.{◌≡◌, ◌+◌, ◌≤◌, ◌<◌, length};
ghost use Rattle.formats.specs.Locations.{location_count, modes_at};
ghost use Rattle.formats.specs.Joint.{switches_of};
ghost use Rattle.formats.specs.Versions.{row_bytes};
ghost use Rattle.models.specs.Index.{components_from, conditions_in};
ghost use Rattle.hypotheses.specs.Tables.{row_place, hypothesis_in, hypotheses_from, roles_from, Stacked};
ghost use Rattle.papers.specs.Paper.{of_paper, on_paper};
ghost use Rattle.papers.specs.Standing.{Stands};
ghost use Rattle.queries.specs.Finding.{row_of, located_at, joint_here, KnownSought, GroupHeld, JointHeld, group_row_for, joint_row_for, sought_row_for};

use crate::{Located, RowFound, Sought};
use fields::versions::row_bytes;
use hypotheses::groups::{flow_table, jump_table, push_here, start_table, unsafe_table};
use hypotheses::tables::{TABLE_LENGTH, lines};
use joint_switches::joints::modes_at;
use joint_switches::slots::{NO_WAYS, landing_at, list_slot};
use models::layout::{VARIABLES_AT, VERSION_AT};
use papers::Paper;
use sums::Line;
use sums::lines::{line_at, row_place, segment_of};

// The table of a location's group.
fn table_at(paper: Paper, location: u32, modes: [u8; 4], g: u32, table: &mut [u16]) -> usize
    requires stands { Stands paper.model.now paper.index.now location modes × ((g < 2 + conditions_in paper.index.now) × ((96 ≤ length table.old) × Stacked table.old 0)) }
    ensures group_held { on_paper GroupHeld paper.entry location g table.new result }
    ensures stacked { Stacked table.new result × (result ≤ 23) }
{
    match g {
        0 => start_table(paper.model, paper.index, modes, table),
        1 => flow_table(paper, location, modes, table),
        _ => unsafe_table(paper, location, modes, (g - 2) as usize, table),
    }
}

// Where the row of a hypothesis stands, one of rows with n coefficients.
fn row_at(version: u32, n: usize, line: Line) -> u32
    requires { (n ≤ 16) × ((line.place < 65536) × (line.row < 65536)) }
    ensures { result ≡ row_place version n line.place line.row }
{
    row_place(version, n, line) as u32
}

// How many bytes a row of n coefficients has.
fn row_size(version: u32, n: usize) -> u32
    requires { n ≤ 16 }
    ensures { result ≡ row_bytes version n }
{
    row_bytes(version, n) as u32
}

// Where the row of a hypothesis stands, by its form, the place of its segment and its number there. The sheets are handed over for the
// contract: no byte of them is read.
fn line_row(model: &[u8], second: &[u8], version: u32, n: usize, line: Line) -> RowFound
    requires { (n ≤ 8) × ((line.place < 65536) × (line.row < 65536)) }
    ensures { result ≡ row_of (hypothesis_in model.now second.now version n line.form line.place line.row) }
{
    match line.form {
        1 => RowFound::InSecond(row_at(version, n, line), row_size(version, n)),
        7 => RowFound::InModel(row_at(version, 2 * n, line), row_size(version, 2 * n)),
        form if 5 < form => RowFound::Nowhere,
        _ => RowFound::InModel(row_at(version, n, line), row_size(version, n)),
    }
}

// Where the row of a table's hypothesis stands, by its number, and its role and owner. None where it has not so many.
fn row_in(
    model: &[u8],
    second: &[u8],
    version: u32,
    n: usize,
    table: &[u16],
    segments: usize,
    h: u32,
) -> Option<Located>
    requires n_bound { n ≤ 8 }
    requires in_bounds { (96 ≤ length table.now) × (Stacked table.now segments × (segments ≤ 23)) }
    ensures { result ≡ located_at (hypotheses_from model.now second.now version n table.now segments) (roles_from table.now segments) h }
{
    if lines(table, segments) <= h {
        return None;
    }
    let g = segment_of(table, 1, segments, h);
    let line = line_at(table, g, segments, h);
    let role = line.form;
    let owner = table[4 * g + 3] as u32;
    let row = line_row(model, second, version, n, line);
    Some(Located { row, role, owner })
}

// Where the row of a hypothesis of a location's group stands, and its role and owner.
fn location_row(paper: Paper, location: u32, g: u32, h: u32) -> Option<Located>
    requires location_bound { (location < location_count (components_from paper.model.now paper.index.now)) × (g < 2 + conditions_in paper.index.now) }
    ensures { result ≡ of_paper group_row_for paper.entry location g h }
{
    let modes = modes_at(paper.model, paper.index, location);
    let version = paper.index[VERSION_AT] as u32;
    let n = paper.index[VARIABLES_AT] as usize;
    let mut table = [0u16; TABLE_LENGTH];
    let segments = table_at(paper, location, modes, g, &mut table);
    row_in(paper.model, paper.second, version, n, &table, segments, h)
}

// The table of a joint switch, by its number among those of its event.
fn joint_table(paper: Paper, location: u32, e: u32, x: u32, table: &mut [u16]) -> usize
    requires location_bound { (location < location_count (components_from paper.model.now paper.index.now)) × ((e ≤ 15) × (x < length (switches_of (components_from paper.model.now paper.index.now) (modes_at (components_from paper.model.now paper.index.now) location) e))) }
    requires in_bounds { (96 ≤ length table.old) × Stacked table.old 0 }
    ensures joint_held { on_paper JointHeld paper.entry (joint_here paper.entry.model.now paper.entry.index.now location e x) table.new result }
    ensures stacked { Stacked table.new result × (result ≤ 23) }
{
    let modes = modes_at(paper.model, paper.index, location);
    let mut ways = NO_WAYS;
    let slot = list_slot(paper.model, paper.index, location, modes, e, &mut ways);
    let landing = landing_at(paper.index, slot, &ways, x);
    let switches = landing.switches;
    let targets = modes_at(paper.model, paper.index, landing.target);
    let here = push_here(paper, location, modes, table);
    jump_table(paper.model, paper.index, targets, switches, here, table)
}

// Where the row of a hypothesis of a joint switch stands, and its role and owner.
fn joint_row(paper: Paper, location: u32, e: u32, x: u32, h: u32) -> Option<Located>
    requires location_bound { (location < location_count (components_from paper.model.now paper.index.now)) × ((e ≤ 15) × (x < length (switches_of (components_from paper.model.now paper.index.now) (modes_at (components_from paper.model.now paper.index.now) location) e))) }
    ensures { result ≡ of_paper joint_row_for paper.entry (joint_here paper.entry.model.now paper.entry.index.now location e x) h }
{
    let version = paper.index[VERSION_AT] as u32;
    let n = paper.index[VARIABLES_AT] as usize;
    let mut table = [0u16; TABLE_LENGTH];
    let segments = joint_table(paper, location, e, x, &mut table);
    row_in(paper.model, paper.second, version, n, &table, segments, h)
}

// Where the row of a hypothesis of what was found stands, and its role and owner.
pub fn sought_row(paper: Paper, sought: Sought, h: u32) -> Option<Located>
    requires known_sought { KnownSought paper.model.now paper.index.now sought }
    ensures { result ≡ of_paper sought_row_for paper.entry sought h }
{
    match sought {
        Sought::AtLocation(location, g, _) => location_row(paper, location, g, h),
        Sought::AtJoint(jump) => joint_row(paper, jump.location, jump.event, jump.nth, h),
    }
}
