// The numbers of a file as elements, one to a number, and the bytes in which they are handed to a reader (document 02, 2.2).
#![tactic(auto)]

ghost use Rattle.std.specs.Prelude.{◌≡◌, ◌++◌, ◌+◌, ◌≤◌, length, take, drop};
ghost use Rattle.numbers.specs.Written.{shortest};
ghost use Rattle.elements.specs.Encoded.{writable, encoded};

// One number more than the longest file has (a history of 1,024 tokens and its count): whether elements follow the last one can be told.
const ELEMENTS: usize = 1026;

// The largest number of three bytes. It is above every range of the files.
const LARGEST: u32 = 2097151;

// Room for that many numbers of three bytes.
pub type Encoding = [u8; 3078];

// Puts the bytes of a number at a place, and gives the place behind them. A number that can't be written becomes the largest.
fn put_number(n: u32, at: usize, file: &mut Encoding) -> usize
    requires { (at + 3 ≤ 3078) × (length file.old ≡ 3078) }
    ensures { (result ≡ at + length (shortest (writable n))) × (file.new ≡ take at file.old ++ shortest (writable n) ++ drop result file.old) }
{
    if n < 128 {
        file[at] = n as u8;
        return at + 1;
    }
    if n < 16384 {
        let two = [(n % 128 + 128) as u8, (n / 128) as u8];
        file[at..at + 2].copy_from_slice(&two);
        return at + 2;
    }
    let number = n.min(LARGEST);
    let three = [
        (number % 128 + 128) as u8,
        (number / 128 % 128 + 128) as u8,
        (number / 16384) as u8,
    ];
    file[at..at + 3].copy_from_slice(&three);
    at + 3
}

// The bytes of the elements, and how many there are. Elements behind the first 1,026 can't change what a reader finds.
pub fn encode(elements: &[u32], file: &mut Encoding) -> usize
    requires { length file.old ≡ 3078 }
    ensures { (result ≡ length (encoded elements.now)) × (file.new ≡ encoded elements.now ++ drop result file.old) }
{
    let first = &elements[..elements.len().min(ELEMENTS)];
    let mut at = 0;
    for &n in first {
        at = put_number(n, at, file);
    }
    at
}
