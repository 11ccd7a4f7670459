// Reads a packed file of test cases, in which a head of fixed size, with the lengths of a case's parts, stands before the parts.
#![tactic(auto)]

ghost use Rattle.std.specs.Prelude.{◌≡◌, ◌+◌, ◌*◌, ◌≤◌, length, take, drop, slice_index, IfSome, IfOk};
ghost use Rattle.std.specs.Int.{w64, from_le_bytes};

use std::io;
use std::io::Read;

// As many cases as are read of a file.
const MOST: u32 = 10000;

// The two files of a case.
#[derive(Clone, Copy)]
pub struct Files<'a> {
    pub grammar: &'a [u8],
    pub history: &'a [u8],
}

// The number of two bytes that begins at a place, the low one first.
pub fn u16_at(bytes: &[u8], at: usize) -> u16
    requires { at + 2 ≤ length bytes.now }
    ensures { result ≡ slice_index bytes.now at + 256 * slice_index bytes.now (at + 1) }
{
    u16::from_le_bytes([bytes[at], bytes[at + 1]])
}

// The number of eight bytes that begins at a place, the low one first.
pub fn u64_at(bytes: &[u8], at: usize) -> u64
    requires { at + 8 ≤ length bytes.now }
    ensures { result ≡ from_le_bytes w64 (take 8 (drop at bytes.now)) }
{
    let mut number = [0u8; 8];
    number.copy_from_slice(&bytes[at..at + 8]);
    u64::from_le_bytes(number)
}

// Reads n bytes, or as many as the buffer holds, to the buffer's start, and gives this part of it.
pub fn part<'a, F: Read>(file: &mut F, n: u16, buf: &'a mut [u8]) -> &'a mut [u8]
    ensures { length result.now ≤ length buf.old }
{
    let k = (n as usize).min(buf.len());
    let read = &mut buf[..k];
    streams::read_full(file, read);
    read
}

// The bytes of the next head; None where the file has no further case.
pub fn head<F: Read, const N: usize>(file: &mut F) -> Option<[u8; N]>
    ensures { IfSome result (λ bytes. length bytes ≡ N) }
{
    let mut bytes = [0u8; N];
    if streams::read_full(file, &mut bytes) < N {
        None
    } else {
        Some(bytes)
    }
}

// Reads the head of each case and runs the case, numbered from 0, which reads its parts. Gives how many cases there are.
pub fn for_each_case<
    F: Read,
    H,
    R: FnMut(&mut F) -> Option<H>,
    C: FnMut(&mut F, H, u32) -> io::Result<()>,
>(file: &mut F, mut read_head: R, mut run: C) -> io::Result<u32>
    requires read { R.IsAlwaysCallable read_head }
    requires run { C.IsAlwaysCallable run }
    ensures { IfOk result (λ count. count ≤ MOST) }
{
    for number in 0..MOST {
        let Some(head) = read_head(file) else {
            return Ok(number);
        };
        run(file, head, number)?;
    }
    Ok(MOST)
}
