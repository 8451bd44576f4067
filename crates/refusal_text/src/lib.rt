// What a refusal's number means, for a C host: a short name and a text, each stored as a C string in a lent slice.
// A number that is no refusal has empty ones.
#![tactic(auto)]

mod c_string;
mod table;

ghost use Rattle.std.specs.Prelude.{◌≡◌, length};
ghost use Rattle.refusal_text.specs.CString.{codes, c_string};
ghost use Rattle.refusal_text.specs.Refusals.{name_of, text_of};

use table::ROWS;

// Stores the refusal's name, cut to the slice, and answers the whole name's length.
pub fn put_name(number: u32, out: &mut [u8]) -> u64
    ensures value { result ≡ length (codes (name_of number)) }
    ensures out_after { out.new ≡ c_string (codes (name_of number)) out.old }
{
    c_string::put(table::row(&ROWS, number).0, out)
}

// Stores what the number means, cut to the slice, and answers the whole text's length.
pub fn put_text(number: u32, out: &mut [u8]) -> u64
    ensures value { result ≡ length (codes (text_of number)) }
    ensures out_after { out.new ≡ c_string (codes (text_of number)) out.old }
{
    c_string::put(table::row(&ROWS, number).1, out)
}
