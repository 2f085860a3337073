// The lines of the cells and of the layers. A NaN, which no job that is done holds, would be written as 7fc00000.
ghost use Rattle.std.specs.Prelude.{◌+◌, ◌*◌, ◌≤◌, ◌<◌, length, ◌≡◌, []};
ghost use Rattle.text.specs.Words.{decimal, hex8, spaced, line};
ghost use Rattle.lists.specs.Joined.{joined};
ghost use Rattle.text.specs.Limits.{most_cells};
ghost use Rattle.lists.specs.Put.{Put};
ghost use Rattle.listing.specs.Listing.{cell_line, row_line};
ghost use Rattle.listing.specs.Written.{shown};

use float_bits::bits_of;
use text::Form;
use text_write::{put_all, put_two, put_value_then};

fn put_cell(out: &mut [u8], at: usize, index: u32, distance: u32, name: u32) -> usize
    requires { at + 36 ≤ length out.old }
    ensures fact { let cell = line "cell=" (spaced (decimal index) (hex8 distance) (decimal name)) in
        Put out.old at cell out.new result }
    ensures upper_bound { result ≤ at + 36 }
{
    let a = put_all(out, at, b"cell=");
    let b = put_value_then(out, a, index, Form::Decimal, 32);
    let c = put_value_then(out, b, distance, Form::Hex8, 32);
    put_value_then(out, c, name, Form::Decimal, 10)
}

pub fn put_cells(out: &mut [u8], at: usize, field: &[f32], names: &[u32]) -> usize
    requires field_len_bound { length field.now ≤ most_cells }
    requires names_len { length names.now ≡ length field.now }
    requires field_in_bounds { at + 36 * length field.now ≤ length out.old }
    ensures fact { let cell = cell_line (shown field.now names.now []) in
        Put out.old at (joined cell (length field.now)) out.new result }
    ensures upper_bound { result ≤ at + 36 * length field.now }
{
    let mut next = at;
    for i in 0..field.len() {
        next = put_cell(out, next, i as u32, bits_of(field[i]), names[i]);
    }
    next
}

pub fn put_rows(out: &mut [u8], at: usize, rows: &[u32]) -> usize
    requires rows_len_bound { length rows.now ≤ most_cells }
    requires rows_in_bounds { at + 26 * length rows.now ≤ length out.old }
    ensures fact { let row = row_line (shown [] [] rows.now) in
        Put out.old at (joined row (length rows.now)) out.new result }
    ensures upper_bound { result ≤ at + 26 * length rows.now }
{
    let mut next = at;
    for layer in 0..rows.len() {
        next = put_two(out, next, b"row=", layer as u32, rows[layer]);
    }
    next
}
