//! A landing: the bytes that a put or a get writes.

ghost use Rattle.std.specs.Prelude.{◌≡◌, ◌+◌, ◌≤◌, ◌<◌, ◌^◌, length, IsPermutation};
ghost use Rattle.bsp_exchange.specs.Landings.{landing_byte};
ghost use Rattle.contested_bytes.specs.Places.{ComeInOrder};
ghost use Rattle.contested_bytes.specs.Ranges.{key_of};

use crate::range::{Contender, Kind};
use shared_bytes::SharedBytes;
use std::alloc::Allocator;
use std::marker::Model;

/// Bytes that come to lie in the memory of a rank, from an address on, and whose request brings them there.
#[derive(Drop)]
pub(crate) struct Landing<A: Allocator> {
    pub(crate) rank: u32,
    pub(crate) addr: u32,
    pub(crate) bytes: SharedBytes<A>,
    pub(crate) kind: Kind,
    pub(crate) caller: u32,
    pub(crate) issue: usize,
}

impl<A: Allocator> Model for Landing<A> {
    ghost use Rattle.std.specs.Prelude.{◌+◌, ◌≤◌, ◌^◌, length};
    ghost use Rattle.bsp_exchange.specs.Landings.{Landing as LandingValue};
    ghost use Rattle.contested_bytes.specs.Ranges.{number_of};

    ghost Value = { LandingValue };

    ghost view = { λ l. record {
      rank = l.rank;
      addr = l.addr;
      bytes = l.bytes;
      key = record { kind = number_of l.kind; caller = l.caller; issue = l.issue };
    } };

    ghost invariant = { λ l. l.addr + length l.bytes ≤ 2 ^ 31 };
}

impl<A: Allocator> Landing<A> {
    /// Where its bytes end.
    pub(crate) fn end(&self) -> u32
        ensures value { result ≡ self.now.addr + length self.now.bytes }
        ensures most { result ≤ 2 ^ 31 }
    {
        self.addr + self.bytes.len() as u32
    }

    /// Its byte at an address that it covers.
    pub(crate) fn byte(&self, addr: u32) -> u8
        requires from { self.now.addr ≤ addr }
        requires to { addr < self.now.addr + length self.now.bytes }
        ensures { result ≡ landing_byte addr self.now }
    {
        self.bytes.as_slice()[(addr - self.addr) as usize]
    }

    /// Its request, with a byte that this brings.
    pub(crate) fn contender(&self, byte: u8) -> Contender
        ensures key { key_of result ≡ self.now.key }
        ensures byte { result.byte ≡ byte }
    {
        Contender {
            kind: self.kind,
            caller: self.caller,
            issue: self.issue,
            byte,
        }
    }
}

/// Sorts landings by rank and then by address.
pub(crate) fn sort_landings<A: Allocator>(all: &mut Vec<Landing<A>, A>)
    ensures same { IsPermutation all.old.items all.new.items }
    ensures order { ComeInOrder all.new.items }
{
    all.sort_unstable_by_key(|landing| (landing.rank, landing.addr));
}
