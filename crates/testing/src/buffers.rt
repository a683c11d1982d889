// Parts of buffers, their first content, and their checksum.
ghost use Rattle.std.specs.Prelude.{◌≡◌, ◌<◌, ◌≤◌, length, IfOk};

use std::io::{self, Read};

// The first n items, or all of them where there are fewer.
pub fn first<T>(items: &[T], n: usize) -> &[T] {
    &items[..n.min(items.len())]
}

// The same of items that are written to.
pub fn first_mut<T>(items: &mut [T], n: usize) -> &mut [T] {
    let n = n.min(items.len());
    &mut items[..n]
}

// The items from n on, none where there are fewer.
pub fn rest<T>(items: &[T], n: usize) -> &[T] {
    &items[n.min(items.len())..]
}

// Reads until the buffer is full or the input ends, and answers how many bytes came. One read may bring fewer than were
// asked for, so the count goes on by what came, in no steps that a `for` could count.
pub fn read_full(input: &mut impl Read, b: &mut [u8]) -> io::Result<usize>
    ensures bound { IfOk result (λ n. n ≤ length b.new) }
    ensures len { length b.new ≡ length b.old }
{
    let mut done = 0;
    while done < b.len() {
        let n = input.read(&mut b[done..])?;
        if n == 0 {
            break;
        }
        done += n;
    }
    Ok(done)
}

// A function of its own, so that no proof contains the zeros.
pub fn zeros<const N: usize>() -> [u8; N]
    ensures { length result ≡ N }
{
    [0; N]
}

// A buffer before it is written to.
pub fn unwritten<const N: usize>() -> [u8; N]
    ensures { length result ≡ N }
{
    pattern(129)
}

// A buffer that `fill` has written.
pub fn pattern<const N: usize>(seed: u8) -> [u8; N]
    ensures { length result ≡ N }
{
    let mut b = zeros();
    fill(&mut b, seed);
    b
}

// Bytes that repeat neither after 256 nor after 4,096 of them, but after 65,536.
pub fn fill(b: &mut [u8], seed: u8)
    ensures { length b.new ≡ length b.old }
{
    for (i, byte) in b.iter_mut().enumerate() {
        let k = i % 65536;
        *byte = ((k * 167 + k / 251 + usize::from(seed)) % 256) as u8;
    }
}

// The bytes as the digits of a number in base 257, modulo the prime 2^55 - 55. A loop: to the closure of a `fold` the sum could be any number, and times 257
// it would not be known to fit.
pub fn checksum(b: &[u8]) -> u64 {
    let mut sum: u64 = 0;
    for byte in b {
        sum = (sum * 257 + u64::from(*byte)) % 36028797018963913;
    }
    sum
}
