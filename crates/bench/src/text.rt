// Text put together piece by piece: each call puts one behind what stands there.
ghost use Rattle.std.specs.Prelude.{◌+◌, ◌<◌, ◌≤◌, [], ◌∷◌, ◌++◌, ◌≡◌, length};
ghost use Rattle.bench.specs.Text.{digit, decimal, field, numbered_line, hex_digit};

use arrayvec::ArrayVec;

// A part's: the line that counts, 8,191 lines of at most 20 octets, the owner's line and that of the next part.
pub const LONGEST_REPORT: usize = 163_850;

pub(crate) type Text = ArrayVec<u8, LONGEST_REPORT>;

pub(crate) const SPACE: u8 = b' ';

pub(crate) const NEWLINE: u8 = b'\n';

pub(crate) fn put(text: &mut Text, octets: &[u8])
    requires { length text.old.items + length octets.now ≤ 163850 }
    ensures { text.new.items ≡ text.old.items ++ octets.now }
{
    text.try_extend_from_slice(octets).unwrap();
}

// A number in decimal: the digits of its tenth, if it has any, then the last one.
pub(crate) fn put_decimal(text: &mut Text, n: usize)
    requires { length text.old.items + length (decimal n) ≤ 163850 }
    ensures { text.new.items ≡ text.old.items ++ decimal n }
{
    if n < 10 {
        text.push(decimal_digit(n));
        return;
    }
    put_decimal(text, n / 10);
    text.push(decimal_digit(n % 10));
}

// A number and a space.
pub(crate) fn put_field(text: &mut Text, n: usize)
    requires { length text.old.items + length (field n) ≤ 163850 }
    ensures { text.new.items ≡ text.old.items ++ field n }
{
    put_decimal(text, n);
    text.push(SPACE);
}

// A line of its own: a word and a number.
#[tactic(auto, unfolding(crate::specs::Text::numbered_line))]
pub(crate) fn put_numbered(text: &mut Text, word: &[u8], n: usize)
    requires { length text.old.items + length (numbered_line word.now n) ≤ 163850 }
    ensures { text.new.items ≡ text.old.items ++ numbered_line word.now n }
{
    put(text, word);
    put_decimal(text, n);
    text.push(NEWLINE);
}

fn decimal_digit(n: usize) -> u8
    requires { n < 10 }
    ensures { result ≡ digit n }
{
    b'0' + n as u8
}

#[tactic(auto, unfolding(crate::specs::Text::hex_digit, laws::specs::Pick::pick))]
pub(crate) fn hex_digit(n: u8) -> u8
    requires { n < 16 }
    ensures { result ≡ hex_digit n }
{
    if n < 10 { b'0' + n } else { b'A' + (n - 10) }
}
