//! Big-endian numbers in a slice. It knows no format.
#![tactic(auto)]

ghost use Rattle.std.specs.Prelude.{◌≡◌, ◌+◌, ◌≤◌, length};
ghost use Rattle.std.specs.List.{AllByRecursion};
ghost use Rattle.byteorder.specs.Endian.{big_bytes};
ghost use Rattle.fields.specs.Fields.{bytes_of, number_at, size, written};

pub mod laws;

use byteorder::{BigEndian, ByteOrder};

/// A number in so many bytes.
#[derive(Clone, Copy)]
pub struct Field {
    pub width: usize,
    pub value: u64,
}

/// A number in so many bytes.
pub fn be(width: usize, value: u64) -> Field
    ensures { result ≡ record { width = width; value = value } }
{
    Field { width, value }
}

/// Writes the fields one after another from a place on, and tells the place after them.
pub fn write(out: &mut [u8], at: usize, fields: &[Field]) -> usize
    requires narrow { AllByRecursion (λ f. f.width ≤ 8) fields.now }
    requires room { at + size fields.now ≤ length out.old }
    ensures end { result ≡ at + size fields.now }
    ensures bytes { out.new ≡ written at (bytes_of fields.now) out.old }
{
    let mut end = at;
    for field in fields {
        put(out, end, *field);
        end += field.width;
    }
    end
}

/// Writes one field at a place.
fn put(out: &mut [u8], at: usize, field: Field)
    requires narrow { field.width ≤ 8 }
    requires room { at + field.width ≤ length out.old }
    ensures { out.new ≡ written at (big_bytes field.width field.value) out.old }
{
    let bytes = field.value.to_be_bytes();
    out[at..at + field.width].copy_from_slice(&bytes[8 - field.width..]);
}

/// The 16-bit number at a place.
#[tactic(auto, unfolding(crate::specs::Fields::number_at))]
pub fn u16_at(bytes: &[u8], at: usize) -> u16
    requires { at + 2 ≤ length bytes.now }
    ensures { result ≡ number_at at 2 bytes.now }
{
    BigEndian::read_u16(&bytes[at..])
}

/// The 32-bit number at a place.
#[tactic(auto, unfolding(crate::specs::Fields::number_at))]
pub fn u32_at(bytes: &[u8], at: usize) -> u32
    requires { at + 4 ≤ length bytes.now }
    ensures { result ≡ number_at at 4 bytes.now }
{
    BigEndian::read_u32(&bytes[at..])
}

/// The 48-bit number at a place.
#[tactic(auto, unfolding(crate::specs::Fields::number_at))]
pub fn u48_at(bytes: &[u8], at: usize) -> u64
    requires { at + 6 ≤ length bytes.now }
    ensures { result ≡ number_at at 6 bytes.now }
{
    BigEndian::read_u48(&bytes[at..])
}

/// The 64-bit number at a place.
#[tactic(auto, unfolding(crate::specs::Fields::number_at))]
pub fn u64_at(bytes: &[u8], at: usize) -> u64
    requires { at + 8 ≤ length bytes.now }
    ensures { result ≡ number_at at 8 bytes.now }
{
    BigEndian::read_u64(&bytes[at..])
}
