// The lines of the job's text: a key, and what stands behind it (document 01, "One job, one listing"). A
// part of the reader: callers use `text_read_job::read_job`.
#![tactic(auto)]

ghost use Rattle.std.specs.Prelude.{◌≡◌, drop};
ghost use Rattle.text.specs.Reader.{value_at, three_numbers, number_line, floats_line, few_cells, count_line};
ghost use Rattle.text.specs.Reader.{upright_at, topology_line, sign_at, table_at};
ghost use Rattle.text_read_words.specs.Told.{got};
ghost use Rattle.text_read_lines.specs.Told.{got_always};

use mesh_topology::Topology;
use point::Axis;
use terms::SignMethod;
use text::{Form, MOST_CELLS, Three};
use text_read_words::Read;

// Three numbers to the end of the line.
fn three_values(text: &[u8], at: usize, form: Form) -> Option<Read<Three>>
    ensures { got text.now result ≡ three_numbers (value_at form) (drop at text.now) }
{
    let x = text_read_words::value(text, at, b' ', form)?;
    let y = text_read_words::value(text, x.next, b' ', form)?;
    let z = text_read_words::value(text, y.next, b'\n', form)?;
    Some(Read {
        value: Three {
            x: x.value,
            y: y.value,
            z: z.value,
        },
        next: z.next,
    })
}

// A line with one number, which is at most `most`.
pub fn number_line(text: &[u8], at: usize, key: &[u8], most: u32) -> Option<Read<u32>>
    ensures { got text.now result ≡ number_line key.now most (drop at text.now) }
{
    let behind = text_read_words::after(text, at, key)?;
    let number = text_read_words::decimal(text, behind, b'\n')?;
    if most < number.value {
        return None;
    }
    Some(number)
}

// A line with three floats.
pub fn floats_line(text: &[u8], at: usize, key: &[u8]) -> Option<Read<Three>>
    ensures { got text.now result ≡ floats_line key.now (drop at text.now) }
{
    let behind = text_read_words::after(text, at, key)?;
    three_values(text, behind, Form::Hex8)
}

// Whether there are few cells. The product of three counts may have 96 bits: above the limit the product of two
// is not multiplied further.
fn few_cells(count: Three) -> bool
    ensures { result ≡ few_cells count }
{
    let layer = (count.x as u64) * (count.y as u64);
    let most = MOST_CELLS as u64;
    if most < layer {
        return count.z == 0;
    }
    layer * (count.z as u64) <= most
}

// The line of the counts.
pub fn count_line(text: &[u8], at: usize) -> Option<Read<Three>>
    ensures { got text.now result ≡ count_line (drop at text.now) }
{
    let behind = text_read_words::after(text, at, b"count=")?;
    let count = three_values(text, behind, Form::Decimal)?;
    let few = few_cells(count.value);
    if !few {
        return None;
    }
    Some(count)
}

// The line of the upright axis, which may be left out: then the place behind it is that where it would stand.
pub fn upright_line(text: &[u8], at: usize) -> Read<Option<Axis>>
    ensures { got_always text.now result ≡ upright_at (drop at text.now) }
{
    if let Some(next) = text_read_words::after(text, at, b"upright=x\n") {
        return Read {
            value: Some(Axis::X),
            next,
        };
    }
    if let Some(next) = text_read_words::after(text, at, b"upright=y\n") {
        return Read {
            value: Some(Axis::Y),
            next,
        };
    }
    if let Some(next) = text_read_words::after(text, at, b"upright=z\n") {
        return Read {
            value: Some(Axis::Z),
            next,
        };
    }
    let said = None;
    Read {
        value: said,
        next: at,
    }
}

// The line of the topology.
pub fn topology_line(text: &[u8], at: usize) -> Option<Read<Topology>>
    ensures { got text.now result ≡ topology_line (drop at text.now) }
{
    if let Some(next) = text_read_words::after(text, at, b"topology=list\n") {
        return Some(Read {
            value: Topology::TriangleList,
            next,
        });
    }
    let next = text_read_words::after(text, at, b"topology=strip\n")?;
    Some(Read {
        value: Topology::TriangleStrip,
        next,
    })
}

// The line of the signs' method, which may be left out: it asks for Normal, and without it the method is Raycast.
pub fn sign_line(text: &[u8], at: usize) -> Read<SignMethod>
    ensures { got_always text.now result ≡ sign_at (drop at text.now) }
{
    if let Some(next) = text_read_words::after(text, at, b"sign=normal\n") {
        return Read {
            value: SignMethod::Normal,
            next,
        };
    }
    Read {
        value: SignMethod::Raycast,
        next: at,
    }
}

// The line of the table's edition, which may be left out. Any number is taken.
pub fn table_line(text: &[u8], at: usize) -> Read<Option<u32>>
    ensures { got_always text.now result ≡ table_at (drop at text.now) }
{
    if let Some(Read { value, next }) = number_line(text, at, b"table=", 4294967295) {
        return Read {
            value: Some(value),
            next,
        };
    }
    Read {
        value: None,
        next: at,
    }
}
