ghost use Rattle.std.specs.Prelude.{◌≡◌, ◌≤◌, true, length, nat_le, if◌then◌else◌};
ghost use Rattle.std.specs.Char.{is_ascii_digit};
ghost use Rattle.std.specs.List.{prefix_len};
ghost use Rattle.std.specs.Str.{all_ascii_digits};
ghost use Rattle.std.specs.Str.Parse.{digits_value};
ghost use Rattle.page_directives.specs.Checks.{buffer_size, kilobytes};

use pg_text::whole_number;

const MAX_KILOBYTES: u64 = 4_096;

// How many bytes at the front are digits.
fn digits_len(text: &[u8]) -> usize
    ensures value { result ≡ prefix_len is_ascii_digit text.now }
    ensures within { result ≤ length text.now }
{
    text.iter().take_while(|b| b.is_ascii_digit()).count()
}

// The number that these digits write, where it isn't too large.
fn kilobytes_in(digits: &[u8]) -> Option<u32>
    requires some { 1 ≤ length digits.now }
    requires few { length digits.now ≤ 4 }
    requires digits { all_ascii_digits digits.now ≡ true }
    ensures { result ≡ (if nat_le (digits_value 10 digits.now) 4096 then Some (digits_value 10 digits.now)
        else None) }
{
    match whole_number(digits) {
        Some(number) if number <= MAX_KILOBYTES => Some(number as u32),
        _ => None,
    }
}

// The digits at the front, without a leading zero, and `kb`.
#[tactic(auto, using(crate::proofs::BufferLemmas::digits_front))]
fn kilobytes(digits: usize, text: &[u8]) -> Option<Option<u32>>
    requires { digits ≡ prefix_len is_ascii_digit text.now }
    ensures { result ≡ kilobytes digits text.now }
{
    let (number, unit) = text.split_at(digits);
    if digits == 0 || digits > 4 || text.starts_with(b"0") || unit != b"kb".as_slice() {
        return None;
    }
    match kilobytes_in(number) {
        Some(kilobytes) => Some(Some(kilobytes * 1_024)),
        None => None,
    }
}

// The size of a buffer in bytes: `none` has none.
#[tactic(auto, unfolding(crate::specs::Checks::buffer_size))]
pub(crate) fn buffer_size(text: &str) -> Option<Option<u32>>
    ensures { result ≡ buffer_size text.now }
{
    if text == "none" {
        return Some(None);
    }
    let text = text.as_bytes();
    kilobytes(digits_len(text), text)
}
