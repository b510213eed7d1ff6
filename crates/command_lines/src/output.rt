ghost use Rattle.std.specs.Prelude.{◌≡◌, [], ◌∷◌, ◌++◌, ◌≤◌, IsTrue, OnErr};
ghost use Rattle.command_lines.specs.Lines.{member_text};
ghost use Rattle.command_lines.specs.Sent.{Puts, Ends, IsBegun, Takes};

use crate::fault::WriteFault;
use crate::pending::Pending;
use crate::watched::{Failing, write};
use basic_types::Name;
use std::alloc::Global;
use std::io;
use std::io::{ErrorKind, Write};

/// What is put into it goes to a writer in this order, and is kept back until it is worth a write. Without memory for it
/// it is written at once. Where a write fails nothing is written after that, and `finish` answers the fault.
pub struct Output<'w, W, B = Pending> {
    writer: &'w mut W,
    failing: Failing,
    pending: B,
    fault: Option<WriteFault>,
}

impl<W, B: Drop> Drop for Output<'_, W, B> {
    /// Writes nothing: what wasn't finished is lost.
    fn drop(self)
        ensures { self.exit.0.now ≡ self.entry.writer.now }
    {
        let Output {
            writer: _,
            failing: _,
            pending: _,
            fault: _,
        } = self;
    }
}

impl<'w, W: Write> Output<'w, W> {
    /// Nothing is put into it.
    pub fn new(alloc: Global, writer: &'w mut W) -> Output<'w, W>
        ensures same_writer { result.writer.ghost_name ≡ writer.entry.ghost_name }
        ensures begun { IsBegun writer.old result }
    {
        Output {
            writer,
            failing: Failing::none(),
            pending: Pending::new(alloc),
            fault: None,
        }
    }

    /// Adds bytes to the output.
    #[inline(always)]
    pub fn put(&mut self, bytes: &[u8])
        ensures { Puts W.contents self.old self.new bytes.now }
    {
        if !self.pending.add(bytes) {
            self.pass_on(bytes);
        }
    }

    /// Adds a byte to the output.
    #[inline(always)]
    pub fn put_byte(&mut self, byte: u8)
        ensures { Puts W.contents self.old self.new (byte ∷ []) }
    {
        if !self.pending.add_byte(byte) {
            self.pass_on(&[byte]);
        }
    }

    /// Adds a word, as `put` does. Its length is known where it is called, and it isn't copied in a loop.
    #[inline(always)]
    pub fn put_word<const N: usize>(&mut self, word: &[u8; N])
        ensures { Puts W.contents self.old self.new word.now }
    {
        if !self.pending.add_word(word) {
            self.pass_on(word);
        }
    }

    /// Adds a word, `object.member` and another word.
    #[inline(always)]
    pub fn put_member<const N: usize, const M: usize>(
        &mut self,
        before: &[u8; N],
        object: &Name,
        member: &Name,
        behind: &[u8; M],
    )
        requires few { (N ≤ 16) × (M ≤ 16) }
        ensures { Puts W.contents self.old self.new
            (before.now ++ member_text object.now member.now ++ behind.now) }
    {
        if !self
            .pending
            .add_member(before, object.bytes(), member.bytes(), behind)
        {
            self.pass_member_on(before, object, member, behind);
        }
    }

    /// Adds the same piece by piece.
    #[cold]
    #[inline(never)]
    fn pass_member_on(&mut self, before: &[u8], object: &Name, member: &Name, behind: &[u8])
        ensures { Puts W.contents self.old self.new
            (before.now ++ member_text object.now member.now ++ behind.now) }
    {
        self.put(before);
        self.member(object, member);
        self.put(behind);
    }

    /// Writes what is still pending. The answer is this exit status; or else why a write failed, at the first one that did.
    pub fn finish(&mut self, status: u8) -> Result<u8, WriteFault>
        ensures { Ends W.contents self.old self.new status result }
    {
        self.send();
        match self.fault {
            None => Ok(status),
            Some(fault) => Err(fault),
        }
    }

    /// Whether a write failed.
    pub fn failing(&self) -> Failing
        ensures { result ≡ self.now.failing }
    {
        self.failing
    }

    /// Makes room for these bytes, or else writes all that is pending; where they are too many they are written too.
    #[cold]
    #[inline(never)]
    fn pass_on(&mut self, bytes: &[u8])
        ensures { Puts W.contents self.old self.new bytes.now }
    {
        if self.pending.add_grown(bytes) {
            return;
        }
        self.send();
        if !self.pending.add(bytes) {
            self.write(bytes);
        }
    }

    /// Writes all that is pending.
    fn send(&mut self)
        ensures puts { Puts W.contents self.old self.new [] }
        ensures empty { self.new.pending ≡ [] }
    {
        if self.fault.is_none() {
            self.fault = write_out(self.writer, &mut self.failing, self.pending.as_slice()).err();
        }
        self.pending.clear();
    }

    /// Writes these bytes, where nothing is pending.
    fn write(&mut self, bytes: &[u8])
        requires { self.old.pending ≡ [] }
        ensures { Puts W.contents self.old self.new bytes.now }
    {
        if self.fault.is_none() {
            self.fault = write_out(self.writer, &mut self.failing, bytes).err();
        }
    }
}

/// So many times a write that a signal interrupts is tried again, and once more for each byte that was taken.
const PATIENCE: usize = 16;

/// Writes bytes, as many at a time as the writer takes. The error is that a write answered one or took no byte; those
/// that were taken by then are the first ones, and none is written after that.
pub fn write_out<W: Write>(
    writer: &mut W,
    failing: &mut Failing,
    bytes: &[u8],
) -> Result<(), WriteFault>
    ensures takes { Takes (W.contents writer.old) (W.contents writer.new) bytes.now result }
    ensures faults { OnErr result (IsTrue failing.new.is_set) }
    ensures kept { IsTrue failing.old.is_set → IsTrue failing.new.is_set }
{
    let mut left = bytes;
    let mut patience = PATIENCE;
    while !left.is_empty() {
        match write(writer, failing, left) {
            Ok(0) => return Err(WriteFault::Failed(io::Error::from(ErrorKind::WriteZero))),
            Ok(taken) => {
                left = &left[taken..];
                patience = patience.saturating_add(taken);
            }
            Err(error) if patience > 0 && error.kind() == ErrorKind::Interrupted => patience -= 1,
            Err(error) => return Err(WriteFault::Failed(error)),
        }
    }
    Ok(())
}
