// Words and decimal numbers, written into a lent text from a place on.
// No Display: it promises what it wrote only where its writer took it, and here each line's bytes are promised.
// A text and a place stay two: `import` lends a page's bytes, `show` an array, so a struct of both would be made for each line and taken apart behind it.
#![tactic(auto)]

ghost use Rattle.std.specs.Prelude.{◌+◌, ◌≤◌, length};
ghost use Rattle.words.specs.Words.{decimal, numbered, several};
ghost use Rattle.words.specs.Wrote.{Wrote};

// Bytes as they are.
#[tactic(auto, using(crate::proofs::Writing::wrote_text))]
pub fn put_text(text: &[u8], out: &mut [u8], at: usize) -> usize
    requires { at + length text.now ≤ length out.old }
    ensures { Wrote out.old at text.now result out.new }
{
    let end = at + text.len();
    out[at..end].copy_from_slice(text);
    end
}

// A number's digits.
pub fn put_decimal(n: u64, out: &mut [u8], at: usize) -> usize
    requires { at + 20 ≤ length out.old }
    ensures { Wrote out.old at (decimal n) result out.new × (result ≤ at + 20) }
{
    let mut text = [0u8; 20];
    let k = io::decimal(n, &mut text);
    put_text(&text[..k], out, at)
}

// A number, and words right behind it.
pub fn put_numbered(n: u64, words: &[u8], out: &mut [u8], at: usize) -> usize
    requires { at + 20 + length words.now ≤ length out.old }
    ensures { Wrote out.old at (numbered n words.now) result out.new × (result ≤ at + 20 + length words.now) }
{
    let end = put_decimal(n, out, at);
    put_text(words, out, end)
}

// So many of something.
pub fn put_several(n: u64, what: &[u8], out: &mut [u8], at: usize) -> usize
    requires { at + 30 ≤ length out.old × (length what.now ≤ 6) }
    ensures { Wrote out.old at (several n what.now) result out.new × (result ≤ at + 30) }
{
    let end = put_decimal(n, out, at);
    let end = put_text(b" ", out, end);
    let end = put_text(what, out, end);
    if n == 1 {
        return end;
    }
    put_text(b"s", out, end)
}
