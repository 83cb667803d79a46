//! Names of desks and references of trades.

ghost use Rattle.std.specs.Prelude.{ℕ, ◌≡◌, ◌<◌, ◌≤◌, ◌↔◌, ◌||◌, true, not, refl, nat_eq, length, position, slice_index, Some};
ghost use Rattle.std.specs.Char.{is_ascii_alphanumeric};
ghost use Rattle.std.specs.Ordering.{nat_cmp};
ghost use Rattle.std.specs.Cmp.{partial_equiv_from_equiv};
ghost use Rattle.std.specs.Cmp.Lexicographic.{pointwise, slice_cmp, nat_list_eq_equiv, nat_list_cmp_total, texts_po, texts_ties};
ghost use Rattle.muni_msg.specs.Letters.{front};
ghost use Rattle.muni_msg.specs.Names.{is_desk_letter, IsName};
ghost use Rattle.muni_msg.specs.NameReading.{fault_number, name_if, name_reading};

use std::cmp::Ordering;
use std::marker::Model;
use thiserror::Error;

/// Why a text is no name.
#[derive(Clone, Copy, Debug, PartialEq, Eq, Error)]
pub enum NameFault {
    /// It has no byte.
    #[error("empty")]
    Empty,
    /// It has more bytes than the name may have.
    #[error("too long")]
    TooLong,
    /// This is the first place of a byte that the name may not have.
    #[error("unexpected byte at {at}")]
    BadByte { at: usize },
}

impl NameFault {
    /// The number of the fault, from 1 to 3. The tests are made in this order.
    pub fn number(&self) -> u32
        // promise 4: each fault of a name has its number
        ensures { result ≡ fault_number self.now }
    {
        match self {
            NameFault::Empty => 1,
            NameFault::TooLong => 2,
            NameFault::BadByte { .. } => 3,
        }
    }
}

/// A limited number of bytes, in the order of lists of bytes. Zeros come after them, so that the first
/// eight of two names are compared as two numbers.
#[derive(Debug, Drop)]
struct Letters<const MOST: usize> {
    bytes: [u8; MOST],
    count: u8,
}

impl<const MOST: usize> Model for Letters<MOST> {
    ghost use Rattle.std.specs.Prelude.{ℕ, List, take};
    ghost use Rattle.muni_msg.specs.Letters.{IsPadded};

    ghost Value = { List ℕ };

    ghost view = { λ letters. take letters.count letters.bytes };

    ghost invariant = { λ letters. IsPadded MOST letters.bytes letters.count };
}

impl<const MOST: usize> Letters<MOST> {
    /// The letters of a text, given the first place of a byte that they may not have.
    fn read(text: &[u8], bad_byte: Option<usize>) -> Result<Letters<MOST>, NameFault>
        requires { (8 ≤ MOST) × (MOST < 256) }
        ensures { result ≡ name_if MOST text.now bad_byte }
    {
        if text.is_empty() {
            return Err(NameFault::Empty);
        }
        if text.len() > MOST {
            return Err(NameFault::TooLong);
        }
        match bad_byte {
            Some(at) => Err(NameFault::BadByte { at }),
            None => Ok(Letters::of(text)),
        }
    }

    fn of(text: &[u8]) -> Letters<MOST>
        requires { (8 ≤ MOST) × (MOST < 256) × (length text.now ≤ MOST) }
        ensures { result ≡ text.now }
    {
        let mut bytes = [0; MOST];
        bytes[..text.len()].copy_from_slice(text);
        Letters {
            bytes,
            count: text.len() as u8,
        }
    }

    fn copy(&self) -> Letters<MOST>
        ensures { result ≡ self.now }
    {
        Letters {
            bytes: self.bytes,
            count: self.count,
        }
    }

    fn as_slice(&self) -> &[u8]
        ensures { result.now ≡ self.now }
    {
        &self.bytes[..usize::from(self.count)]
    }

    /// The first eight bytes as a number, zeros for those that are missing.
    fn front(&self) -> u64
        ensures front { result ≡ front 8 self.now }
        ensures bytes { (place : ℕ) → slice_index self.now place < 256 }
    {
        first_eight(&self.bytes)
    }
}

impl<const MOST: usize> PartialEq for Letters<MOST> {
    ghost eq = { pointwise nat_eq };

    ghost laws = { partial_equiv_from_equiv nat_list_eq_equiv };

    fn eq(&self, other: &Letters<MOST>) -> bool {
        self.as_slice() == other.as_slice()
    }
}

impl<const MOST: usize> Eq for Letters<MOST> {
    ghost laws = { nat_list_eq_equiv };
}

impl<const MOST: usize> PartialOrd for Letters<MOST> {
    ghost partial_cmp = { λ s t. Some (slice_cmp nat_cmp s t) };

    ghost laws = { texts_po };

    fn partial_cmp(&self, other: &Letters<MOST>) -> Option<Ordering> {
        Some(self.cmp(other))
    }
}

impl<const MOST: usize> Ord for Letters<MOST> {
    ghost cmp = { slice_cmp nat_cmp };

    ghost total = { nat_list_cmp_total };

    ghost matches_partial_cmp = { λ s t. refl };

    ghost matches_eq = { texts_ties };

    fn cmp(&self, other: &Letters<MOST>) -> Ordering {
        let (first, second) = (self.front(), other.front());
        if first != second {
            return first.cmp(&second);
        }
        order(self.as_slice(), other.as_slice())
    }
}

/// The first eight bytes as a number.
fn first_eight(bytes: &[u8]) -> u64
    requires { 8 ≤ length bytes.now }
    ensures front { result ≡ front 8 bytes.now }
    ensures bytes { (place : ℕ) → slice_index bytes.now place < 256 }
{
    u64::from_be_bytes([
        bytes[0], bytes[1], bytes[2], bytes[3], bytes[4], bytes[5], bytes[6], bytes[7],
    ])
}

/// The order of two names, byte by byte.
fn order(first: &[u8], second: &[u8]) -> Ordering
    ensures { result ≡ slice_cmp nat_cmp first.now second.now }
{
    for place in 0..first.len().min(second.len()) {
        if first[place] != second[place] {
            return first[place].cmp(&second[place]);
        }
    }
    first.len().cmp(&second.len())
}

fn bad_desk_byte(text: &[u8]) -> Option<usize>
    ensures { result ≡ position (λ b. not (is_desk_letter b)) text.now }
{
    text.iter()
        .position(|b| !(b.is_ascii_uppercase() || b.is_ascii_digit()))
}

fn bad_reference_byte(text: &[u8]) -> Option<usize>
    ensures { result ≡ position (λ b. not (is_ascii_alphanumeric b)) text.now }
{
    text.iter().position(|b| !b.is_ascii_alphanumeric())
}

/// The name of a desk: 1 to 16 bytes of A-Z and 0-9.
#[derive(Debug, Drop, PartialEq, Eq, PartialOrd, Ord)]
pub struct DeskName(Letters<16>);

impl Model for DeskName {
    ghost use Rattle.std.specs.Prelude.{ℕ, List};
    ghost use Rattle.muni_msg.specs.Names.{is_desk_letter, IsName};

    ghost Value = { List ℕ };

    ghost view = { λ name. name.0 };

    ghost invariant = { λ name. IsName is_desk_letter 16 name.0 };

    ghost inverse = { λ bytes. record { 0 = bytes } };
}

impl DeskName {
    /// Reads the name of a desk.
    pub fn read(text: &[u8]) -> Result<DeskName, NameFault>
        // promise 4: the name of a desk is read exactly by its format
        ensures { result ≡ name_reading is_desk_letter 16 text.now }
    {
        Ok(DeskName(Letters::read(text, bad_desk_byte(text))?))
    }

    /// A name of equal value.
    pub fn copy(&self) -> DeskName
        ensures { result ≡ self.now }
    {
        DeskName(self.0.copy())
    }

    /// The bytes of the name.
    pub fn bytes(&self) -> &[u8]
        ensures value { result.now ≡ self.now }
        ensures name { IsName is_desk_letter 16 self.now }
    {
        self.0.as_slice()
    }
}

/// The reference of a trade: 1 to 20 bytes of A-Z, a-z and 0-9. References are in the order of
/// their bytes.
#[derive(Debug, Drop, PartialEq, Eq, PartialOrd, Ord)]
pub struct Reference(Letters<20>);

impl Model for Reference {
    ghost use Rattle.std.specs.Prelude.{ℕ, List};
    ghost use Rattle.std.specs.Char.{is_ascii_alphanumeric};
    ghost use Rattle.muni_msg.specs.Names.{IsName};

    ghost Value = { List ℕ };

    ghost view = { λ reference. reference.0 };

    ghost invariant = { λ reference. IsName is_ascii_alphanumeric 20 reference.0 };

    ghost inverse = { λ bytes. record { 0 = bytes } };
}

impl Reference {
    /// Reads a reference.
    pub fn read(text: &[u8]) -> Result<Reference, NameFault>
        // promise 4: a reference is read exactly by its format
        ensures { result ≡ name_reading is_ascii_alphanumeric 20 text.now }
    {
        Ok(Reference(Letters::read(text, bad_reference_byte(text))?))
    }

    /// A reference of equal value.
    pub fn copy(&self) -> Reference
        ensures { result ≡ self.now }
    {
        Reference(self.0.copy())
    }

    /// The bytes of the reference.
    pub fn bytes(&self) -> &[u8]
        ensures value { result.now ≡ self.now }
        ensures name { IsName is_ascii_alphanumeric 20 self.now }
    {
        self.0.as_slice()
    }
}

impl Default for Reference {
    /// An empty slot of a list. No contract reads it.
    fn default() -> Reference {
        Reference(Letters::of(b"0"))
    }
}
