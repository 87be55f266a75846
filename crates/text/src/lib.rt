// What the programs print: a word as eight hexadecimal digits, a whole number in decimal, a name with its number, and the line of a refusal.
//
// It goes into lent slices, and the digits into an array, since there is no heap: of std only a `String` is promised to hold what `Display`
// prints. A function answers how many bytes it put, which are none where they have no room (`Fits`).
#![tactic(auto)]

mod words; // words.rt: a line of four words

ghost use Rattle.std.specs.Prelude.{◌≡◌, ◌≤◌, ◌%◌, length};
ghost use Rattle.text.specs.Text.{digit_of, word_of, decimal_of, named_of, refused_of, last_line};
ghost use Rattle.text.specs.Putting.{Fits, Puts};

pub use words::put_words;

const DIGITS: [u8; 16] = *b"0123456789ABCDEF";

// The last hexadecimal digit of a number, upper case.
fn digit(n: u32) -> u8
    ensures { result ≡ digit_of (n % 16) }
{
    DIGITS[(n % 16) as usize]
}

// A word, highest digit first. A map over the places would have to show of each that it is not 0, to divide by it.
#[tactic(auto, unfolding(crate::specs::Text::word_of))]
pub fn word(n: u32) -> [u8; 8]
    ensures { result ≡ word_of n }
{
    [
        digit(n / 0x1000_0000),
        digit(n / 0x100_0000),
        digit(n / 0x10_0000),
        digit(n / 0x1_0000),
        digit(n / 0x1000),
        digit(n / 0x100),
        digit(n / 0x10),
        digit(n),
    ]
}

// Copies a text to the start of `out`, which has room for it; how many bytes it has.
#[tactic(auto, unfolding(crate::specs::Putting::over))]
pub(crate) fn copy(text: &[u8], out: &mut [u8]) -> usize
    requires { length text.now ≤ length out.old }
    ensures { Puts text.now out.old out.new result }
{
    let n = text.len();
    out[..n].copy_from_slice(text);
    n
}

// Puts a text at the start of `out` where that has room for it; how many bytes were put.
fn put(text: &[u8], out: &mut [u8]) -> usize
    ensures { Fits text.now out.old out.new result }
{
    if text.len() > out.len() {
        return 0;
    }
    copy(text, out)
}

// The digits of a number, no zero in front.
pub fn put_decimal(n: u64, out: &mut [u8]) -> usize
    ensures { Fits (decimal_of n) out.old out.new result }
{
    let mut digits = [0u8; 20];
    let k = io::decimal(n, &mut digits);
    put(&digits[..k], out)
}

// A name and a number, one space apart, and a newline.
pub fn put_named(name: &[u8], number: u64, out: &mut [u8]) -> usize
    ensures { Fits (named_of name.now number) out.old out.new result }
{
    let mut digits = [0u8; 20];
    let k = io::decimal(number, &mut digits);
    if out.len() < k + 2 {
        return 0;
    }
    if out.len() - (k + 2) < name.len() {
        return 0;
    }
    let n = copy(name, out);
    out[n] = b' ';
    copy(&digits[..k], &mut out[n + 1..]);
    out[n + 1 + k] = b'\n';
    n + k + 2
}

// The line of a refusal, by its number, whatever number that is.
#[tactic(auto, unfolding(crate::specs::Text::refused_of, crate::specs::Text::named_of))]
pub fn put_refused(number: u8, out: &mut [u8]) -> usize
    ensures { Fits (refused_of number) out.old out.new result }
{
    put_named(b"refused", u64::from(number), out)
}

// The last line of a log: that of a refusal, where one ended it; 0 is none.
pub fn put_last(number: u8, out: &mut [u8]) -> usize
    ensures { Fits (last_line number) out.old out.new result }
{
    if number == 0 {
        return 0;
    }
    put_refused(number, out)
}
