// Text in ASCII, written into a slice from a place on. Each function answers the place after its text.
// kept: `Written`, which the contracts cite, is of a place in a lent slice, and the library has no heap for a `String` or a `Vec`; so digits
// are written by hand too.
ghost use Rattle.std.specs.Prelude.{◌≡◌, ◌++◌, map, ◌+◌, ◌≤◌, length};
ghost use Rattle.lines.specs.Text.{hex_digit, Written, decimal as decimal_text};

pub fn bytes(text: &[u8], at: usize, out: &mut [u8]) -> usize
    requires { at + length text.now ≤ length out.old }
    ensures { Written out.old at text.now result out.new }
{
    let end = at + text.len();
    out[at..end].copy_from_slice(text);
    end
}

// The last hexadecimal digit of a byte, in lower case.
pub fn hex_digit(value: u8) -> u8
    ensures { result ≡ hex_digit value }
{
    let d = value % 16;
    if d < 10 { b'0' + d } else { b'a' - 10 + d }
}

// One hexadecimal digit for each value.
pub fn digits(values: &[u8], at: usize, out: &mut [u8]) -> usize
    requires { at + length values.now ≤ length out.old }
    ensures { Written out.old at (map hex_digit values.now) result out.new }
{
    let mut end = at;
    for value in values {
        out[end] = hex_digit(*value);
        end += 1;
    }
    end
}

pub fn decimal(n: usize, at: usize, out: &mut [u8]) -> usize
    requires { at + length (decimal_text n) ≤ length out.old }
    ensures { Written out.old at (decimal_text n) result out.new }
{
    if n < 10 {
        out[at] = b'0' + n as u8;
        return at + 1;
    }
    let end = decimal(n / 10, at, out);
    out[end] = b'0' + (n % 10) as u8;
    end + 1
}

// A number and the text that follows it. No number takes more than 20 bytes.
pub fn decimal_then(n: usize, text: &[u8], at: usize, out: &mut [u8]) -> usize
    requires { at + (20 + length text.now) ≤ length out.old }
    ensures { Written out.old at (decimal_text n ++ text.now) result out.new
        × (result ≤ at + (20 + length text.now)) }
{
    let end = decimal(n, at, out);
    bytes(text, end, out)
}
