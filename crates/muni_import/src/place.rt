//! Where a text stands, as far as the ends of its rows hang on it.

ghost use Rattle.std.specs.Prelude.{◌≡◌, if◌then◌else◌};
ghost use Rattle.muni_import.specs.Places as spec;

/// Where a text stands after some of its bytes.
#[derive(Clone, Copy, Debug, PartialEq, Eq)]
pub(crate) enum Place {
    /// At its start.
    Start,
    /// After the first byte of a mark of its byte order.
    AfterOne,
    /// After two bytes of such a mark.
    AfterTwo,
    /// Before a row.
    Row,
    /// Before a field after a comma.
    Field,
    /// In a field, and not in quotes.
    Inside,
    /// In quotes.
    Quoted,
    /// After a quote in quotes, which ends them if no other quote comes.
    Unquoted,
}

impl Place {
    /// After one byte more, and whether a row or an empty line ends with it.
    fn step(self, byte: u8) -> (Place, bool)
        ensures { result ≡ spec.step self byte }
    {
        match self {
            Place::Start => before_text(byte),
            Place::AfterOne => by_mark(byte == 0xbb, Place::AfterTwo, byte),
            Place::AfterTwo => by_mark(byte == 0xbf, Place::Row, byte),
            Place::Row => before_row(byte),
            Place::Field => before_field(byte),
            Place::Inside => in_field(byte),
            Place::Quoted => in_quotes(byte),
            Place::Unquoted => after_quote(byte),
        }
    }

    /// Goes over bytes. Returns how many of them come up to the last end of a row, which is 0 if none
    /// ends among them.
    pub(crate) fn pass(&mut self, bytes: &[u8]) -> usize
        ensures { spec.Passes self.old bytes.now result self.new }
    {
        let mut end = 0;
        for i in 0..bytes.len() {
            let (place, ends) = self.step(bytes[i]);
            *self = place;
            end = last_end(end, ends, i + 1);
        }
        end
    }
}

fn last_end(end: usize, ends: bool, here: usize) -> usize
    ensures { result ≡ (if ends then here else end) }
{
    if ends { here } else { end }
}

fn is_line_end(byte: u8) -> bool
    ensures { result ≡ spec.is_line_end byte }
{
    byte == b'\r' || byte == b'\n'
}

fn in_field(byte: u8) -> (Place, bool)
    ensures { result ≡ spec.in_field byte }
{
    if byte == b',' {
        (Place::Field, false)
    } else if is_line_end(byte) {
        (Place::Row, true)
    } else {
        (Place::Inside, false)
    }
}

fn before_field(byte: u8) -> (Place, bool)
    ensures { result ≡ spec.before_field byte }
{
    if byte == b'"' {
        (Place::Quoted, false)
    } else {
        in_field(byte)
    }
}

fn before_row(byte: u8) -> (Place, bool)
    ensures { result ≡ spec.before_row byte }
{
    if is_line_end(byte) {
        (Place::Row, true)
    } else {
        before_field(byte)
    }
}

fn before_text(byte: u8) -> (Place, bool)
    ensures { result ≡ spec.before_text byte }
{
    if byte == 0xef {
        (Place::AfterOne, false)
    } else {
        before_row(byte)
    }
}

// After a byte that may go on a mark of the byte order.
fn by_mark(goes_on: bool, place: Place, byte: u8) -> (Place, bool)
    ensures { result ≡ spec.by_mark goes_on place byte }
{
    if goes_on {
        (place, false)
    } else {
        in_field(byte)
    }
}

fn in_quotes(byte: u8) -> (Place, bool)
    ensures { result ≡ spec.in_quotes byte }
{
    if byte == b'"' {
        (Place::Unquoted, false)
    } else {
        (Place::Quoted, false)
    }
}

fn after_quote(byte: u8) -> (Place, bool)
    ensures { result ≡ spec.after_quote byte }
{
    if byte == b'"' {
        (Place::Quoted, false)
    } else {
        in_field(byte)
    }
}
