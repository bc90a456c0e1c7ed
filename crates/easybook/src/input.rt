ghost use Rattle.std.specs.Prelude.{◌≡◌, ◌≤◌, ◌<◌, ◌+◌, ◌^◌, ◌++◌, true, IfErr, IfOk, IfSome, OnOk, take, vec_len};
ghost use Rattle.std.specs.Io.KnownBytes.{IsAtEnd};
ghost use Rattle.easybook.specs.Input.{IsBegun, IsBegunUpTo, IsInputFault, IsReadFault};

use crate::fault::ProgramFault;
use parallel_reader::{BegunLog, begin_log};
use std::alloc::Allocator;
use std::io::Read;
use std::marker::Sync;
use std::thread::Threads;

#[tactic(auto, using(crate::proofs::Inputs::reader_fails))]
pub(crate) fn read_front<R: Read + Drop, A: Allocator + Copy>(
    alloc: A,
    reader: R,
    limit: u64,
) -> Result<Vec<u8, A>, ProgramFault>
    requires { limit < 2 ^ 63 }
    ensures front { IfOk result (λ bytes. IfSome (R.remaining reader) (λ all. bytes.items ≡ take (limit + 1) all)) }
    ensures fault { IfErr result IsReadFault }
{
    let mut bytes = Vec::new(alloc);
    reader.take(limit + 1).read_to_end(&mut bytes)?;
    Ok(bytes)
}

/// Reads all that a reader has, at most `limit` bytes.
///
/// TooLong where there are more; at most one byte past the limit is read. Read where the reader
/// returns an error. Memory where a growth is refused.
pub fn read_input<R: Read + Drop, A: Allocator + Copy>(
    alloc: A,
    reader: R,
    limit: u64,
) -> Result<Vec<u8, A>, ProgramFault>
    requires { limit < 2 ^ 63 }
    ensures whole { IfOk result (λ bytes. IfSome (R.remaining reader) (λ all. bytes.items ≡ all)) }
    ensures within { IfOk result (λ bytes. vec_len bytes ≤ limit) }
    ensures fault { IfErr result (IsInputFault (R.remaining reader) limit) }
{
    let bytes = read_front(alloc, reader, limit)?;
    if bytes.len() as u64 > limit {
        return Err(ProgramFault::TooLong);
    }
    Ok(bytes)
}

#[tactic(auto, using(crate::proofs::Inputs::reader_fails))]
fn read_rest<R: Read, A: Allocator + Copy>(
    reader: &mut R,
    rest: &mut Vec<u8, A>,
    is_end: bool,
) -> Result<(), ProgramFault>
    requires { is_end ≡ true → IsAtEnd (R.remaining reader.old) }
    ensures whole { OnOk result (IfSome (R.remaining reader.old) (λ more. rest.new.items ≡ rest.old.items ++ more)) }
    ensures fault { IfErr result IsReadFault }
{
    if !is_end {
        reader.read_to_end(rest)?;
    }
    Ok(())
}

#[tactic(auto, using(crate::proofs::Inputs::reader_fails))]
pub(crate) fn begin_front<T: Threads + Sync, R: Read + Drop, A: Allocator + Copy>(
    rt: &T,
    alloc: A,
    reader: R,
    limit: u64,
) -> Result<BegunLog<A>, ProgramFault>
    requires { limit < 2 ^ 63 }
    ensures front { IfOk result (λ b. IsBegunUpTo (limit + 1) (R.remaining reader) b.front b.rest.items) }
    ensures fault { IfErr result IsReadFault }
{
    let mut reader = reader.take(limit + 1);
    let mut begun = begin_log(rt, alloc, &mut reader)?;
    read_rest(&mut reader, &mut begun.rest, begun.is_end)?;
    Ok(begun)
}

pub(crate) fn begin_input<T: Threads + Sync, R: Read + Drop, A: Allocator + Copy>(
    rt: &T,
    alloc: A,
    reader: R,
    limit: u64,
) -> Result<BegunLog<A>, ProgramFault>
    requires { limit < 2 ^ 63 }
    ensures whole { IfOk result (λ b. IsBegun limit (R.remaining reader) b.front b.rest.items) }
    ensures fault { IfErr result (IsInputFault (R.remaining reader) limit) }
{
    let begun = begin_front(rt, alloc, reader, limit)?;
    if begun.front.bytes().saturating_add(begun.rest.len() as u64) > limit {
        return Err(ProgramFault::TooLong);
    }
    Ok(begun)
}
