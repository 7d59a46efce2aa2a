// Printed text: fields of bytes, decimal, signed and hexadecimal numbers, one behind another in a fixed room.
#![tactic(auto)]

ghost use Rattle.std.specs.Prelude.{◌≡◌, [], ◌∷◌, ◌++◌, ◌<◌};
ghost use Rattle.text.specs.Numbers.{digit, place, decimal, signed, hexadecimal};
ghost use Rattle.text.specs.Texts.{empty, adding};

pub const ROOM: usize = 1088;

// The first `length` of the bytes; those behind them are 0.
#[derive(Drop)]
pub struct Text {
    pub bytes: [u8; ROOM],
    pub length: usize,
}

pub fn empty() -> Text
    ensures { result ≡ empty }
{
    Text {
        bytes: [0u8; ROOM],
        length: 0,
    }
}

// The text with a byte behind it, where there is room.
#[tactic(auto, unfolding(crate::specs::Texts::adding))]
fn with_byte(mut text: Text, b: u8) -> Text
    ensures { result ≡ adding text (b ∷ []) }
{
    if text.length < ROOM {
        text.bytes[text.length] = b;
        text.length += 1;
    }
    text
}

// The text with a field behind it, and the byte that stands after the field.
pub fn with_field(text: Text, field: &[u8], after: u8) -> Text
    ensures { result ≡ adding text (field.now ++ (after ∷ [])) }
{
    let mut next = text;
    for b in field {
        next = with_byte(next, *b);
    }
    with_byte(next, after)
}

// The byte of a digit: 0 to 9, then A to F.
fn digit(d: u64) -> u8
    requires { d < 16 }
    ensures { result ≡ digit d }
{
    if d < 10 { 48 + d as u8 } else { 55 + d as u8 }
}

// The text with the digit of a place behind it, where the number reaches that place.
fn with_place(text: Text, x: u32, p: u32) -> Text
    requires { 0 < p }
    ensures { result ≡ adding text (place p x) }
{
    if p <= x {
        with_byte(text, digit((x / p % 10) as u64))
    } else {
        text
    }
}

// The text with a number of at most five digits behind it, and the byte that stands after it.
pub fn with_decimal(text: Text, x: u32, after: u8) -> Text
    ensures { result ≡ adding text (decimal x ++ (after ∷ [])) }
{
    let mut next = with_place(text, x, 10000);
    next = with_place(next, x, 1000);
    next = with_place(next, x, 100);
    next = with_place(next, x, 10);
    next = with_byte(next, digit((x % 10) as u64));
    with_byte(next, after)
}

// The text with a signed number behind it, and the byte that stands after it.
pub fn with_signed(text: Text, x: i32, after: u8) -> Text
    ensures { result ≡ adding text (signed x ++ (after ∷ [])) }
{
    if x < 0 {
        let next = with_byte(text, b'-');
        with_decimal(next, x.unsigned_abs(), after)
    } else {
        with_decimal(text, x.unsigned_abs(), after)
    }
}

// The text with the sixteen hexadecimal digits of a number behind it, and the byte that stands after them.
pub fn with_hexadecimal(text: Text, x: u64, after: u8) -> Text
    ensures { result ≡ adding text (hexadecimal x ++ (after ∷ [])) }
{
    let mut next = text;
    for i in 0..16u32 {
        next = with_byte(next, digit((x >> (4 * (15 - i))) % 16));
    }
    with_byte(next, after)
}
