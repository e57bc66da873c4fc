// The lines of a tally, written into a buffer from a place on. Each function answers the place behind what it wrote.
ghost use Rattle.std.specs.Prelude.{◌+◌, ◌≤◌, length};
ghost use Rattle.output_lines.specs.Output.{longest_count, Written};
ghost use Rattle.tally_lines.specs.Output.{cell_line, cell_lines, lines_of_tally, row_room, tally_room};

use output_lines::output::print_count;
use recognisers::counts::RECOGNISERS;
use tallies::TallyRow;

// The line of one cell, if it isn't zero.
fn write_cell(k: u64, c: u8, count: u64, out: &mut [u8], at: usize) -> usize
    requires { at + longest_count ≤ length out.old }
    ensures { (result ≤ at + longest_count) × Written out.old at (cell_line k c count) out.new result }
{
    if count == 0 {
        at
    } else {
        print_count(k, c, count, out, at)
    }
}

// The lines of a recogniser's counts.
fn write_cells(k: u64, row: &TallyRow, out: &mut [u8], at: usize) -> usize
    requires { at + row_room ≤ length out.old }
    ensures { (result ≤ at + row_room) × Written out.old at (cell_lines k 0 row.now.counts) out.new result }
{
    let mut place = at;
    for (c, count) in row.counts.iter().enumerate() {
        place = write_cell(k, c as u8, u64::from(*count), out, place);
    }
    place
}

// The lines of a table, from the buffer's front on.
pub(crate) fn write_tally(tally: &[TallyRow; RECOGNISERS], out: &mut [u8]) -> usize
    requires { tally_room ≤ length out.old }
    ensures { (result ≤ tally_room) × Written out.old 0 (lines_of_tally 0 tally.now) out.new result }
{
    let mut place = 0;
    for (k, row) in tally.iter().enumerate() {
        place = write_cells(k as u64, row, out, place);
    }
    place
}
