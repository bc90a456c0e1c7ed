// A buffer is filled until it is full or the reader has no more. `is_end` says that the latter is known.
ghost use Rattle.std.specs.Prelude.{◌≡◌, ◌≤◌, ◌<◌, ◌+◌, ◌++◌, ℕ, List, length, take, drop, true, false, IfOk, OnErr, OnOk};
ghost use Rattle.std.specs.Io.KnownBytes.{Consumes, IsAtEnd, Keeps};

use std::io;
use std::io::{ErrorKind, Read};

/// So often is a read tried again that a signal interrupted.
const MOST_INTERRUPTS: u32 = 4_294_967_295;

fn read_at<R: Read>(reader: &mut R, buffer: &mut [u8], at: usize) -> io::Result<usize>
    requires { at < length buffer.old }
    ensures same { length buffer.new ≡ length buffer.old }
    ensures front { take at buffer.new ≡ take at buffer.old }
    ensures fits { IfOk result (λ n. at + n ≤ length buffer.new) }
    ensures given { IfOk result (λ n. Consumes (R.remaining reader.old) (R.remaining reader.new) (take n (drop at buffer.new))) }
    ensures end { IfOk result (λ n. n ≡ 0 → IsAtEnd (R.remaining reader.new)) }
    ensures kept { OnErr result (Keeps (R.remaining reader.old) (R.remaining reader.new)) }
{
    reader.read(&mut buffer[at..])
}

fn fill_behind<R: Read>(reader: &mut R, buffer: &mut [u8], at: usize) -> io::Result<usize>
    requires { at ≤ length buffer.old }
    ensures same { length buffer.new ≡ length buffer.old }
    ensures front { take at buffer.new ≡ take at buffer.old }
    ensures low { IfOk result (λ filled. at ≤ filled) }
    ensures high { IfOk result (λ filled. filled ≤ length buffer.new) }
    ensures given { IfOk result (λ filled. Consumes (R.remaining reader.old) (R.remaining reader.new) (drop at (take filled buffer.new))) }
    ensures end { IfOk result (λ filled. filled < length buffer.new → IsAtEnd (R.remaining reader.new)) }
{
    let mut filled = at;
    let mut interrupts = 0u32;
    'reads: while filled < buffer.len() {
        match read_at(reader, buffer, filled) {
            Ok(0) => return Ok(filled),
            Ok(more) => filled += more,
            Err(error) => {
                if error.kind() != ErrorKind::Interrupted || interrupts >= MOST_INTERRUPTS {
                    return Err(error);
                }
                interrupts += 1;
            }
        }
    }
    Ok(filled)
}

fn put_front(buffer: &mut [u8], front: &[u8])
    requires { length front.now ≤ length buffer.old }
    ensures same { length buffer.new ≡ length buffer.old }
    ensures front { take (length front.now) buffer.new ≡ front.now }
{
    buffer[..front.len()].copy_from_slice(front);
}

pub(crate) fn refill<R: Read>(
    reader: &mut R,
    buffer: &mut [u8],
    front: &[u8],
    is_end: bool,
) -> io::Result<usize>
    requires { length front.now ≤ length buffer.old }
    ensures same { length buffer.new ≡ length buffer.old }
    ensures high { IfOk result (λ filled. filled ≤ length buffer.new) }
    ensures given { IfOk result (λ filled. (more : List ℕ) × Consumes (R.remaining reader.old) (R.remaining reader.new) more × (take filled buffer.new ≡ front.now ++ more)) }
    ensures asked { OnOk result (is_end ≡ true → R.remaining reader.new ≡ R.remaining reader.old) }
    ensures end { IfOk result (λ filled. is_end ≡ false → filled < length buffer.new → IsAtEnd (R.remaining reader.new)) }
{
    put_front(buffer, front);
    if is_end {
        return Ok(front.len());
    }
    fill_behind(reader, buffer, front.len())
}
