//! The bytes of a page: those that pages share, or a copy of its own.
ghost use Rattle.std.specs.Prelude.{◌≡◌, ◌+◌, ◌≤◌, ◌++◌, take, drop, length, true, false, IsTrue, is_ok};
ghost use Rattle.std.specs.Prelude.{IfOk, IfSome, OnOk, OnErr};
ghost use Rattle.std.specs.Arc.{arc_value};
ghost use Rattle.paged_memory.specs.PageBytes.{own_bytes, shared_bytes};

use std::alloc::{AllocError, Global};
use std::marker::Model;
use std::mem;
use std::sync::Arc;

#[derive(Drop)]
enum Kept {
    Shared(Arc<Vec<u8>>),
    Own(Vec<u8>),
}

/// The bytes of a page.
#[derive(Drop)]
pub struct PageBytes {
    kept: Kept,
}

impl Model for PageBytes {
    ghost use Rattle.paged_memory.specs.PageBytes.{HeldBytes, held_bytes_code};

    ghost Value = { HeldBytes };

    ghost coded = { held_bytes_code };

    ghost use Rattle.paged_memory.specs.Kept.{held_in};

    ghost view = { λ b. held_in b.kept };
}

/// Sets a run of bytes; where it is as long as a word or a doubleword, by one move.
#[inline(always)]
fn set_run(into: &mut [u8], at: usize, bytes: &[u8])
    requires { at + length bytes.now ≤ length into.old }
    ensures count { length into.new ≡ length into.old }
    ensures value { into.new ≡ take at into.old ++ (bytes.now ++ drop (at + length bytes.now) into.old) }
{
    match bytes.len() {
        8 => into[at..at + 8].copy_from_slice(&bytes[..8]),
        4 => into[at..at + 4].copy_from_slice(&bytes[..4]),
        _ => into[at..at + bytes.len()].copy_from_slice(bytes),
    }
}

impl PageBytes {
    /// Bytes of a page's own.
    pub fn own_of(bytes: Vec<u8>) -> PageBytes
        ensures { result ≡ own_bytes bytes.items }
    {
        PageBytes {
            kept: Kept::Own(bytes),
        }
    }

    /// Bytes that pages may share. `Err` is want of memory.
    pub fn shared_of(alloc: Global, bytes: Vec<u8>) -> Result<PageBytes, AllocError>
        ensures { IfOk result (λ b. b ≡ shared_bytes bytes.items) }
    {
        let bytes = Arc::new(alloc, bytes)?;
        Ok(PageBytes {
            kept: Kept::Shared(bytes),
        })
    }

    /// The bytes.
    #[inline(always)]
    pub fn as_slice(&self) -> &[u8]
        ensures { result.now ≡ self.now.items }
    {
        match &self.kept {
            Kept::Shared(bytes) => bytes.as_slice(),
            Kept::Own(bytes) => bytes.as_slice(),
        }
    }

    /// Whether they are the page's own.
    #[inline(always)]
    pub fn is_own(&self) -> bool
        ensures { result ≡ self.now.own }
    {
        match &self.kept {
            Kept::Shared(_) => false,
            Kept::Own(_) => true,
        }
    }

    /// The bytes for one who holds them while pages change, where pages may share them. `None` is for bytes of the
    /// page's own, and where no more may hold them.
    #[inline(always)]
    pub fn held(&self) -> Option<Arc<Vec<u8>>>
        ensures { IfSome result (λ bytes. self.now ≡ shared_bytes (arc_value bytes).items) }
    {
        match &self.kept {
            Kept::Shared(bytes) => Arc::try_clone(bytes).ok(),
            Kept::Own(_) => None,
        }
    }

    /// The same bytes for another page; they are copied only where they are this page's own. `Err` is want
    /// of memory.
    pub fn share(&self, alloc: Global) -> Result<PageBytes, AllocError>
        ensures { IfOk result (λ b. b ≡ shared_bytes self.now.items) }
    {
        match &self.kept {
            Kept::Shared(bytes) => Ok(PageBytes {
                kept: Kept::Shared(Arc::try_clone(bytes)?),
            }),
            Kept::Own(bytes) => PageBytes::shared_of(
                alloc,
                Vec::from_slice(alloc, bytes.as_slice())?,
            ),
        }
    }

    /// Gives bytes that are shared a copy of the page's own. `Err` is want of memory, and leaves all as it
    /// was.
    #[inline(always)]
    pub fn make_own(&mut self, alloc: Global) -> Result<(), AllocError>
        ensures items { self.new.items ≡ self.old.items }
        ensures ok { OnOk result (self.new.own ≡ true) }
        ensures err { OnErr result (self.new.own ≡ self.old.own) }
        ensures room { OnErr result (self.old.own ≡ false) }
    {
        if self.is_own() {
            return Ok(());
        }
        self.copy_own(alloc)
    }

    /// The same by a call.
    #[inline(never)]
    fn copy_own(&mut self, alloc: Global) -> Result<(), AllocError>
        ensures items { self.new.items ≡ self.old.items }
        ensures ok { OnOk result (self.new.own ≡ true) }
        ensures err { OnErr result (self.new.own ≡ self.old.own) }
        ensures room { OnErr result (self.old.own ≡ false) }
    {
        let copy = match &self.kept {
            Kept::Shared(bytes) => Vec::from_slice(alloc, bytes.as_slice())?,
            Kept::Own(_) => return Ok(()),
        };
        self.kept = Kept::Own(copy);
        Ok(())
    }

    /// Lets other pages share the bytes, which are not copied. `Err` is want of memory, after which they may
    /// be lost.
    pub fn make_shared(&mut self, alloc: Global) -> Result<(), AllocError>
        ensures { OnOk result (self.new ≡ shared_bytes self.old.items) }
    {
        match mem::replace(&mut self.kept, Kept::Own(Vec::new(alloc))) {
            Kept::Shared(bytes) => self.kept = Kept::Shared(bytes),
            Kept::Own(bytes) => self.kept = Kept::Shared(Arc::new(alloc, bytes)?),
        }
        Ok(())
    }

    /// Sets a run of bytes, which are the page's own.
    #[inline(always)]
    pub fn set(&mut self, at: usize, bytes: &[u8])
        requires own { self.old.own ≡ true }
        requires inside { at + length bytes.now ≤ length self.old.items }
        ensures { self.new ≡ own_bytes (take at self.old.items
            ++ (bytes.now ++ drop (at + length bytes.now) self.old.items)) }
    {
        match &mut self.kept {
            Kept::Own(own) => set_run(own.as_mut_slice(), at, bytes),
            Kept::Shared(_) => unreachable!(),
        }
    }
}
