// A scanner's file, binary STL, piece by piece (document 02, §1): a word of four bytes and the record of a facet, read and
// written. What a file says as a whole is defined in specs/File.antt. A part of the port: users call `sdf`.
#![tactic(auto)]

ghost use Rattle.std.specs.Prelude.{◌+◌, ◌≤◌, ◌≡◌, length};
ghost use Rattle.lists.specs.Put.{Put};
ghost use Rattle.float_bits.specs.Patterns.{floats_of, bits_of};
ghost use Rattle.stl.specs.File.{u32_at, bytes_of, nine_of, record_of};

// The number whose four bytes stand at `at`, the least first.
pub fn word(bytes: &[u8], at: usize) -> u32
    requires { at + 4 ≤ length bytes.now }
    ensures { result ≡ u32_at bytes.now at }
{
    u32::from_le_bytes([bytes[at], bytes[at + 1], bytes[at + 2], bytes[at + 3]])
}

// Writes the four bytes of a number at `at`.
pub fn put_word(bytes: &mut [u8], at: usize, w: u32)
    requires { at + 4 ≤ length bytes.old }
    ensures { Put bytes.old at (bytes_of w) bytes.new (at + 4) }
{
    bytes[at..at + 4].copy_from_slice(&w.to_le_bytes());
}

// The patterns of a facet's nine numbers. They are all read before the first is stored: a compiler that cannot see that the
// file and the corners lie apart would go through them one by one.
fn nine_words(facet: &[u8]) -> [u32; 9]
    requires { length facet.now ≡ 50 }
    ensures { result ≡ nine_of facet.now }
{
    let mut words = [0u32; 9];
    for i in 0..9 {
        words[i] = word(facet, 12 + 4 * i);
    }
    words
}

// The corner reader: the nine numbers of a facet's record, which is handed to it as it stands in the file.
pub fn read_facet(facet: &[u8], corners: &mut [f32])
    requires facet_len { length facet.now ≡ 50 }
    requires corners_len { length corners.old ≡ 9 }
    ensures { corners.new ≡ floats_of (nine_of facet.now) }
{
    let words = nine_words(facet);
    for i in 0..9 {
        corners[i] = float_bits::float_of(words[i]);
    }
}

// The patterns of nine numbers, before the first is written, as above.
fn nine_bits(corners: &[f32]) -> [u32; 9]
    requires { length corners.now ≡ 9 }
    ensures { result ≡ bits_of corners.now }
{
    let mut words = [0u32; 9];
    for i in 0..9 {
        words[i] = float_bits::bits_of(corners[i]);
    }
    words
}

// Writes the record of a facet: the normal zero, the nine numbers, the attributes zero.
pub fn write_facet(corners: &[f32], facet: &mut [u8])
    requires corners_len { length corners.now ≡ 9 }
    requires facet_len { length facet.old ≡ 50 }
    ensures { facet.new ≡ record_of (bits_of corners.now) }
{
    let words = nine_bits(corners);
    put_word(facet, 0, 0);
    put_word(facet, 4, 0);
    put_word(facet, 8, 0);
    for i in 0..9 {
        put_word(facet, 12 + 4 * i, words[i]);
    }
    facet[48] = 0;
    facet[49] = 0;
}
