// A text as a C string in a lent slice.
ghost use Rattle.std.specs.Prelude.{◌≡◌, length};
ghost use Rattle.refusal_text.specs.CString.{c_string};

// Stores as much of the text as leaves room for a zero byte, then that, and answers the whole text's length.
#[tactic(auto, using(crate::proofs::Put::put_cut, crate::proofs::Put::put_nowhere))]
pub fn put(text: &str, out: &mut [u8]) -> u64
    ensures value { result ≡ length text.now }
    ensures out_after { out.new ≡ c_string text.now out.old }
{
    let text = text.as_bytes();
    if !out.is_empty() {
        let stored = text.len().min(out.len() - 1);
        out[..stored].copy_from_slice(&text[..stored]);
        out[stored] = 0;
    }
    text.len() as u64
}
