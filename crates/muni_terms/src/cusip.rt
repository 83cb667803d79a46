//! The check digit of CUSIP numbers.

ghost use Rattle.std.specs.Prelude.{◌≡◌, ◌≤◌, ◌+◌, ◌*◌, ◌%◌, length, true};
ghost use Rattle.std.specs.List.{list_all};
ghost use Rattle.muni_rule.specs.Cusip as rule;

fn is_cusip_character(character: u8) -> bool
    ensures { result ≡ rule.is_cusip_character character }
{
    character.is_ascii_digit() || character.is_ascii_uppercase()
}

fn are_cusip_characters(characters: &[u8]) -> bool
    ensures { result ≡ list_all rule.is_cusip_character characters.now }
{
    characters.iter().all(|c| is_cusip_character(*c))
}

fn character_value(character: u8) -> u32
    requires { rule.is_cusip_character character ≡ true }
    ensures value { result ≡ rule.character_value character }
    ensures range { result ≤ 35 }
{
    let value = if character.is_ascii_digit() {
        character - b'0'
    } else {
        character - b'A' + 10
    };
    u32::from(value)
}

// What a character adds to the sum. Each second value is doubled.
fn weight(character: u8, place: usize) -> u32
    requires { rule.is_cusip_character character ≡ true }
    ensures value { result
        ≡ rule.digit_sum (rule.character_value character * (1 + place % 2)) }
    ensures range { result ≤ 18 }
{
    let value = character_value(character);
    let weighted = if place % 2 == 1 { 2 * value } else { value };
    weighted / 10 + weighted % 10
}

fn check_sum(characters: &[u8]) -> u32
    requires few { length characters.now ≤ 8 }
    requires characters { list_all rule.is_cusip_character characters.now ≡ true }
    ensures { result ≡ rule.check_sum 0 characters.now }
{
    let mut sum = 0;
    for (i, character) in characters.iter().enumerate() {
        sum += weight(*character, i);
    }
    sum
}

/// Whether nine bytes are a CUSIP number: eight digits and capital letters, and their check digit.
pub fn is_cusip(text: &[u8; 9]) -> bool
    ensures { result ≡ rule.is_cusip text.now }
{
    let characters = &text[..8];
    are_cusip_characters(characters)
        && u32::from(text[8]) == 48 + (10 - check_sum(characters) % 10) % 10
}
