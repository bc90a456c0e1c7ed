// The lines of a piece are read in `readers` threads while those of the piece before it are added to a
// front. That piece then takes what stands behind the lines of this one, and behind it what the reader has;
// None where its lines can't be added. Each thread is started by this one: one that another starts may wait
// until this one has done.
ghost use Rattle.std.specs.Prelude.{◌≡◌, ◌<◌, ◌≤◌, ◌++◌, [], length, is_some, true, take, IfNone, IfOk, IfSome, OnOk};
ghost use Rattle.std.specs.Io.KnownBytes.{IsAtEnd};
ghost use Rattle.std.specs.Thread.{IsSync};
ghost use Rattle.swf_text.specs.Text.{lines};
ghost use Rattle.parallel_reader.specs.Adding.{texts};
ghost use Rattle.parallel_reader.specs.Fronts.{AreJobsIn, EndsLine, Fills, Grows};
ghost use Rattle.parallel_reader.specs.Jobs.{AreJobsOf, portion_lines};

use crate::filling::refill;
use crate::front::LogFront;
use crate::portion::{JobLines, split_portion};
use memchr::memrchr;
use std::alloc::Allocator;
use std::io;
use std::io::Read;
use std::marker::{Model, Sync};
use std::thread::{Threads, join_mut};

/// Bytes that were read at once: whole lines, and the beginning of another behind them. Its memory is
/// used again by the bytes behind them.
#[derive(Drop)]
pub(crate) struct Piece<A: Allocator + Copy> {
    bytes: Vec<u8, A>,
    filled: usize,
    whole: usize,
    jobs: Vec<JobLines, A>,
}

impl<A: Allocator + Copy> Model for Piece<A> {
    ghost use Rattle.std.specs.Prelude.{◌≤◌, ◌-◌, drop, length, take};
    ghost use Rattle.parallel_reader.specs.Fronts.{EndsLine, PieceView};

    ghost Value = { PieceView };

    ghost view = { λ p. record { lines = take p.whole p.bytes.items; tail = take (p.filled - p.whole) (drop p.whole p.bytes.items); jobs = p.jobs.items } };

    ghost invariant = { λ p. record { whole : p.whole ≤ p.filled; filled : p.filled ≤ length p.bytes.items; ends : EndsLine (take p.whole p.bytes.items) } };
}

fn end_of_lines(bytes: &[u8]) -> usize
    ensures within { result ≤ length bytes.now }
    ensures ends { EndsLine (take result bytes.now) }
{
    match memrchr(b'\n', bytes) {
        Some(last) => last + 1,
        None => 0,
    }
}

fn portions_of<'a, A: Allocator + Copy>(alloc: A, bytes: &'a [u8]) -> io::Result<Vec<&'a [u8], A>>
    ensures { IfOk result (λ portions. portion_lines (texts portions.items) ≡ lines bytes.now) }
{
    let mut portions = Vec::new(alloc);
    let mut rest = bytes;
    'portions: while !rest.is_empty() {
        let (portion, after) = split_portion(rest);
        portions.push(portion)?;
        rest = after;
    }
    Ok(portions)
}

fn read_portions(portions: &[&[u8]], jobs: &mut [JobLines])
    requires { length jobs.old ≡ length portions.now }
    ensures { AreJobsOf portions.now jobs.new }
{
    for place in 0..jobs.len() {
        jobs[place].read(portions[place]);
    }
}

#[cycle(readers)]
fn read_while<T: Threads + Sync, F: FnMut() -> B, B>(
    rt: &T,
    readers: usize,
    portions: &[&[u8]],
    jobs: &mut [JobLines],
    work: &mut F,
) -> B
    requires places { length jobs.old ≡ length portions.now }
    requires work { F.pre work.old }
    ensures read { AreJobsOf portions.now jobs.new }
    ensures work { F.step work.old result work.new }
{
    if readers == 0 {
        read_portions(portions, jobs);
        return work();
    }
    let share = jobs.len() / readers;
    let (texts, texts_behind) = portions.split_at(share);
    let (lines, lines_behind) = jobs.split_at_mut(share);
    read_some_while(rt, readers, texts, lines, texts_behind, lines_behind, work)
}

#[cycle(readers)]
fn read_some_while<T: Threads + Sync, F: FnMut() -> B, B>(
    rt: &T,
    readers: usize,
    texts: &[&[u8]],
    lines: &mut [JobLines],
    texts_behind: &[&[u8]],
    lines_behind: &mut [JobLines],
    work: &mut F,
) -> B
    requires some { 0 < readers }
    requires places { length lines.old ≡ length texts.now }
    requires behind { length lines_behind.old ≡ length texts_behind.now }
    requires work { F.pre work.old }
    ensures read { AreJobsOf texts.now lines.new }
    ensures behind { AreJobsOf texts_behind.now lines_behind.new }
    ensures work { F.step work.old result work.new }
{
    let fewer = readers - 1;
    let mut read = ||
        requires { length lines.now ≡ length texts.now }
        ensures { AreJobsOf texts.entry.now lines.exit.now }
    { read_portions(texts, lines) };
    let mut others = || -> B
        requires { IsSync T.row × (length lines_behind.now ≡ length texts_behind.now) × F.pre work.now }
        ensures behind { AreJobsOf texts_behind.entry.now lines_behind.exit.now }
        ensures work { F.step work.entry.now result work.exit.now }
    { read_while(rt, fewer, texts_behind, lines_behind, work) };
    let (_read, done) = join_mut(rt, &mut read, &mut others);
    done
}

fn add_and_fill<R: Read, A: Allocator + Copy>(
    alloc: A,
    front: &mut LogFront<A>,
    ready: &mut Piece<A>,
    reader: &mut R,
    tail: &[u8],
    is_end: bool,
) -> io::Result<Option<bool>>
    ensures grows { IfOk result (λ ended. Grows front.old ready.old front.new (is_some ended)) }
    ensures given { IfOk result (λ ended. IfSome ended (λ e. Fills (R.remaining reader.old) (R.remaining reader.new) tail.now ready.new)) }
    ensures end { IfOk result (λ ended. IfSome ended (λ e. (is_end ≡ true → IsAtEnd (R.remaining reader.old)) → e ≡ true → IsAtEnd (R.remaining reader.new))) }
    ensures kept { IfOk result (λ ended. IfNone ended ((ready.new ≡ ready.old) × (R.remaining reader.new ≡ R.remaining reader.old))) }
{
    if !front.add(alloc, ready) {
        return Ok(None);
    }
    Ok(Some(ready.fill(reader, tail, is_end)?))
}

fn read_and_add<T: Threads + Sync, R: Read, A: Allocator + Copy>(
    rt: &T,
    readers: usize,
    alloc: A,
    front: &mut LogFront<A>,
    ready: &mut Piece<A>,
    reader: &mut R,
    tail: &[u8],
    is_end: bool,
    portions: &[&[u8]],
    jobs: &mut [JobLines],
) -> io::Result<Option<bool>>
    requires places { length jobs.old ≡ length portions.now }
    ensures read { AreJobsOf portions.now jobs.new }
    ensures grows { IfOk result (λ ended. Grows front.old ready.old front.new (is_some ended)) }
    ensures given { IfOk result (λ ended. IfSome ended (λ e. Fills (R.remaining reader.old) (R.remaining reader.new) tail.now ready.new)) }
    ensures end { IfOk result (λ ended. IfSome ended (λ e. (is_end ≡ true → IsAtEnd (R.remaining reader.old)) → e ≡ true → IsAtEnd (R.remaining reader.new))) }
    ensures kept { IfOk result (λ ended. IfNone ended ((ready.new ≡ ready.old) × (R.remaining reader.new ≡ R.remaining reader.old))) }
{
    let mut add = || -> io::Result<Option<bool>>
        ensures grows { IfOk result (λ ended. Grows front.entry.now ready.entry.now front.exit.now (is_some ended)) }
        ensures given { IfOk result (λ ended. IfSome ended (λ e. Fills (R.remaining reader.entry.now) (R.remaining reader.exit.now) tail.entry.now ready.exit.now)) }
        ensures end { IfOk result (λ ended. IfSome ended (λ e. (is_end ≡ true → IsAtEnd (R.remaining reader.entry.now)) → e ≡ true → IsAtEnd (R.remaining reader.exit.now))) }
        ensures kept { IfOk result (λ ended. IfNone ended ((ready.exit.now ≡ ready.entry.now) × (R.remaining reader.exit.now ≡ R.remaining reader.entry.now))) }
    { add_and_fill(alloc, front, ready, reader, tail, is_end) };
    read_while(rt, readers, portions, jobs, &mut add)
}

impl<A: Allocator + Copy> Piece<A> {
    pub(crate) fn new(alloc: A, size: usize) -> io::Result<Piece<A>>
        ensures lines { IfOk result (λ p. p.lines ≡ []) }
        ensures tail { IfOk result (λ p. p.tail ≡ []) }
        ensures jobs { IfOk result (λ p. p.jobs ≡ []) }
    {
        let mut bytes = Vec::new(alloc);
        bytes.resize(size, 0)?;
        Ok(Piece {
            bytes,
            filled: 0,
            whole: 0,
            jobs: Vec::new(alloc),
        })
    }

    pub(crate) fn lines(&self) -> &[u8]
        ensures lines { result.now ≡ self.now.lines }
        ensures ends { EndsLine self.now.lines }
    {
        &self.bytes[..self.whole]
    }

    pub(crate) fn tail(&self) -> &[u8]
        ensures { result.now ≡ self.now.tail }
    {
        &self.bytes[self.whole..self.filled]
    }

    pub(crate) fn all(&self) -> &[u8]
        ensures { result.now ≡ self.now.lines ++ self.now.tail }
    {
        &self.bytes[..self.filled]
    }

    pub(crate) fn jobs(&self) -> &[JobLines]
        ensures { result.now ≡ self.now.jobs }
    {
        self.jobs.as_slice()
    }

    pub(crate) fn fill<R: Read>(
        &mut self,
        reader: &mut R,
        front: &[u8],
        is_end: bool,
    ) -> io::Result<bool>
        ensures given { OnOk result (Fills (R.remaining reader.old) (R.remaining reader.new) front.now self.new) }
        ensures end { IfOk result (λ ended. (is_end ≡ true → IsAtEnd (R.remaining reader.old)) → ended ≡ true → IsAtEnd (R.remaining reader.new)) }
    {
        self.filled = 0;
        self.whole = 0;
        self.bytes.resize(self.bytes.len().max(front.len()), 0)?;
        let filled = refill(reader, self.bytes.as_mut_slice(), front, is_end)?;
        self.whole = end_of_lines(&self.bytes[..filled]);
        self.filled = filled;
        Ok(is_end || filled < self.bytes.len())
    }

    pub(crate) fn read_beside<T: Threads + Sync, R: Read>(
        &mut self,
        rt: &T,
        readers: usize,
        alloc: A,
        front: &mut LogFront<A>,
        ready: &mut Piece<A>,
        reader: &mut R,
        is_end: bool,
    ) -> io::Result<Option<bool>>
        ensures lines { self.new.lines ≡ self.old.lines }
        ensures read { OnOk result (AreJobsIn (lines self.new.lines) self.new.jobs) }
        ensures grows { IfOk result (λ ended. Grows front.old ready.old front.new (is_some ended)) }
        ensures given { IfOk result (λ ended. IfSome ended (λ e. Fills (R.remaining reader.old) (R.remaining reader.new) self.old.tail ready.new)) }
        ensures end { IfOk result (λ ended. IfSome ended (λ e. (is_end ≡ true → IsAtEnd (R.remaining reader.old)) → e ≡ true → IsAtEnd (R.remaining reader.new))) }
        ensures kept { IfOk result (λ ended. IfNone ended ((self.new.tail ≡ self.old.tail) × (ready.new ≡ ready.old) × (R.remaining reader.new ≡ R.remaining reader.old))) }
    {
        let bytes = self.bytes.as_slice();
        let portions = portions_of(alloc, &bytes[..self.whole])?;
        let tail = &bytes[self.whole..self.filled];
        self.jobs.resize(portions.len(), JobLines::new())?;
        let jobs = self.jobs.as_mut_slice();
        read_and_add(
            rt,
            readers,
            alloc,
            front,
            ready,
            reader,
            tail,
            is_end,
            portions.as_slice(),
            jobs,
        )
    }
}
