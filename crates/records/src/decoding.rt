// What the bodies of records say: numbers with the high byte first, amounts in two's complement.
ghost use Rattle.std.specs.Prelude.{◌≡◌, ◌+◌, ◌<◌, ◌≤◌, ◌^◌, ℕ, slice_index};
ghost use Rattle.records.specs.Bytes.{of4, amount_of, amounts_of, entry_of, asked_of};

use crossed::asked::Question;
use crossed::entries::{Amounts, Entry};
use measure::Band;
use std::array;

// The byte at a place, 0 past the end.
fn byte(body: &[u8], i: usize) -> u8
    ensures { result ≡ slice_index body.now i }
{
    body.get(i).copied().unwrap_or(0)
}

// The bytes from a place on, 0 past the end.
fn bytes_at<const N: usize>(body: &[u8], at: u8) -> [u8; N]
    requires { N ≤ 8 }
    ensures { (k : ℕ) → k < N → slice_index result k ≡ slice_index body.now (at + k) }
{
    array::from_fn(|k| byte(body, usize::from(at) + k))
}

// The number of columns that the body of a heading says.
pub fn heading_in(body: &[u8]) -> u8
    ensures { result ≡ slice_index body.now 0 }
{
    byte(body, 0)
}

// The number at the front of the body of an entry or a strike.
pub fn number_in(body: &[u8]) -> u32
    ensures { result ≡ of4 body.now 0 }
{
    u32::from_be_bytes(bytes_at(body, 0))
}

// The amount of the eight bytes from a place on.
fn amount_at(body: &[u8], at: u8) -> i64
    ensures { result ≡ amount_of body.now at }
{
    i64::from_be_bytes(bytes_at(body, at))
}

// The four amounts from a place on.
fn amounts_at(body: &[u8], at: u8) -> Amounts
    requires { at ≤ 33 }
    ensures { result ≡ amounts_of body.now at }
{
    Amounts {
        first: amount_at(body, at),
        second: amount_at(body, at + 8),
        third: amount_at(body, at + 16),
        fourth: amount_at(body, at + 24),
    }
}

// The entry in the body of an entry record.
pub fn entry_in(body: &[u8]) -> Entry
    ensures { result ≡ entry_of body.now }
{
    Entry {
        number: number_in(body),
        value: amounts_at(body, 4),
    }
}

// What the body of a question record asks.
pub fn asked_in(body: &[u8]) -> Question
    ensures { result ≡ asked_of body.now }
{
    Question {
        size: usize::from(byte(body, 0)),
        band: Band {
            low: amounts_at(body, 1),
            high: amounts_at(body, 33),
        },
    }
}
