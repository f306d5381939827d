// The answer buffer of a C function: u64 fields, one after the other from byte 0 on.

#![tactic(auto)]

ghost use Rattle.std.specs.Prelude.{◌≡◌, ◌*◌, ◌≤◌, length};
ghost use Rattle.field.specs.Run.{put_at};
ghost use Rattle.answer.specs.Answer.{fields, number_with, answer_with};

use field::Refusal;
use field::number::put_u64;

// Puts the fields from byte 0 on.
fn put_fields(answer: &mut [u8], values: &[u64])
    requires { 8 * length values.now ≤ length answer.old }
    ensures { answer.new ≡ put_at answer.old 0 (fields values.now) }
{
    for (i, &value) in values.iter().enumerate() {
        put_u64(answer, 8 * i, value);
    }
}

// Gives an answer: the number, and its fields in the buffer; 1 where the buffer has no room for them, and then it stays.
pub fn give(answer: &mut [u8], number: u64, values: &[u64]) -> u64
    ensures { (result ≡ number_with (length values.now) number answer.old)
        × (answer.new ≡ answer_with values.now answer.old) }
{
    if answer.len() / 8 < values.len() {
        return u64::from(Refusal::Geometry);
    }
    put_fields(answer, values);
    number
}
