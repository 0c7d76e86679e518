// Hexadecimal text: digits put into a lent text, and read back from one.
#![tactic(auto)]

ghost use Rattle.std.specs.Prelude.{◌≡◌, fold, false, ◌||◌, ◌^◌, ◌<◌, true, not, length};
ghost use Rattle.digits.specs.Hex.{digit, hex, are_digits, is_digit, number_in};
ghost use Rattle.digits.specs.Low.{low_of, low_in};
ghost use Rattle.digits.specs.Put.{put_whole};

// The byte of a digit.
fn digit(d: u8) -> u8
    requires { d < 16 }
    ensures { result ≡ digit d }
{
    if d < 10 { b'0' + d } else { b'a' + (d - 10) }
}

// The count digits that say x, from a place of the text on. Where the text has no room for them all, it stays.
// The text is whole, with a place in it, so that the promise says what all of it holds afterwards.
#[tactic(auto, using(crate::proofs::Puts::putting))]
pub fn put_hex(text: &mut [u8], at: usize, count: usize, x: u64)
    ensures { text.new ≡ put_whole text.old at (hex count x) }
{
    let room = text.len();
    if room < at {
        return;
    }
    if room - at < count {
        return;
    }
    let mut rest = x;
    for k in (0..count).rev() {
        text[at + k] = digit((rest % 16) as u8);
        rest /= 16;
    }
}

// Whether a byte is no lower-case hexadecimal digit.
// One value without a branch, in the order of its definition: `any_other` folds over it.
pub fn no_digit(b: u8) -> bool
    ensures { result ≡ not (is_digit b) }
{
    !(((48 <= b) & (b < 58)) | ((97 <= b) & (b < 103)))
}

// Whether any byte of a part is no digit. The fold has no exit, so that the compiler looks at several bytes at once.
fn any_other(part: &[u8]) -> bool
    ensures { result ≡ fold (λ bad b. bad || not (is_digit b)) false part.now }
{
    part.iter().fold(false, |bad, b| bad | no_digit(*b))
}

// Whether all of a part is digits.
#[tactic(auto, using(crate::proofs::Digits::none_other))]
pub fn are_digits(part: &[u8]) -> bool
    ensures { result ≡ are_digits part.now }
{
    !any_other(part)
}

// What the low bits of a byte say: of a digit, the digit. No branch is in it.
fn low_of(b: u8) -> u64
    ensures { (result ≡ low_of b) × (result < 16) }
{
    ((b % 16 + 9 * (b / 64)) % 16) as u64
}

// What the low bits of a part say, whatever it is, sixteen bytes at most: of digits, their number. More say 0.
// 0 here and below, and no Option: every caller has judged the digits before, and would have no use for None.
#[tactic(auto, using(crate::proofs::Digits::reading))]
pub fn low(part: &[u8]) -> u64
    ensures { (result ≡ low_in part.now) × (result < 16 ^ length part.now) }
{
    if 16 < part.len() {
        return 0;
    }
    let mut x = 0;
    for b in part {
        x = x * 16 + low_of(*b);
    }
    x
}

// What a part says. One that is no number of 64 bits, digits and sixteen at most, says 0.
#[tactic(auto, using(crate::proofs::Digits::numbered))]
pub fn number(part: &[u8]) -> u64
    ensures { (result ≡ number_in part.now) × (result < 16 ^ length part.now) }
{
    if are_digits(part) {
        return low(part);
    }
    0
}
