//! Fields, read one after the other.
ghost use Rattle.std.specs.Prelude.{◌≡◌, ◌≤◌, ◌==◌, length, Ok};
ghost use Rattle.txn_codec.specs.Reading.{Reads, Rest, field, number, byte, tagged, flag_follows, name_at, blob_at};

use crate::CodecFault;
use byteorder::{BigEndian, ByteOrder};
use fs_model::Blob;
use fs_names::Name;
use std::alloc::Global;
use std::marker::Model;

// Bytes that are left to read, and the place where they begin.
#[derive(Drop)]
pub(crate) struct Reader<'a> {
    at: u64,
    rest: &'a [u8],
}

impl<'a> Model for Reader<'a> {
    ghost use Rattle.std.specs.Prelude.{◌+◌, ◌<◌, ◌^◌, length};
    ghost use Rattle.txn_codec.specs.Reading.{Rest};

    ghost Value = { Rest };

    ghost view = { λ r. record { at = r.at; bytes = r.rest.now } };

    ghost invariant = { λ r. r.at + length r.rest.now < 2 ^ 64 };
}

impl<'a> Reader<'a> {
    pub(crate) fn new(rest: &'a [u8]) -> Self
        ensures { result ≡ record { at = 0; bytes = rest.now } }
    {
        Reader { at: 0, rest }
    }

    pub(crate) fn place(&self) -> u64
        ensures { result ≡ self.now.at }
    {
        self.at
    }

    pub(crate) fn is_at_end(&self) -> bool
        ensures { result ≡ (length self.now.bytes == 0) }
    {
        self.rest.is_empty()
    }

    fn field(&mut self, len: usize) -> Result<&'a [u8], CodecFault>
        ensures { Reads (λ x. x.now) result self.new (field len self.old) }
    {
        if self.rest.len() < len {
            return Err(CodecFault::Short { at: self.at });
        }
        let (front, rest) = self.rest.split_at(len);
        self.rest = rest;
        self.at += len as u64;
        Ok(front)
    }

    pub(crate) fn byte(&mut self) -> Result<u8, CodecFault>
        ensures { Reads (λ x. x) result self.new (byte self.old) }
    {
        match self.rest {
            [] => Err(CodecFault::Short { at: self.at }),
            [byte, rest @ ..] => {
                self.rest = rest;
                self.at += 1;
                Ok(*byte)
            }
        }
    }

    fn u16(&mut self) -> Result<u16, CodecFault>
        ensures { Reads (λ x. x) result self.new (number 2 self.old) }
    {
        Ok(BigEndian::read_u16(self.field(2)?))
    }

    pub(crate) fn u32(&mut self) -> Result<u32, CodecFault>
        ensures { Reads (λ x. x) result self.new (number 4 self.old) }
    {
        Ok(BigEndian::read_u32(self.field(4)?))
    }

    pub(crate) fn u64(&mut self) -> Result<u64, CodecFault>
        ensures { Reads (λ x. x) result self.new (number 8 self.old) }
    {
        Ok(BigEndian::read_u64(self.field(8)?))
    }

    pub(crate) fn flag(&mut self) -> Result<bool, CodecFault>
        ensures { Reads (λ x. x) result self.new (tagged flag_follows self.old) }
    {
        let at = self.at;
        match self.byte()? {
            0 => Ok(false),
            1 => Ok(true),
            _ => Err(CodecFault::BadTag { at }),
        }
    }

    #[tactic(auto, unfolding(crate::specs::Reading::name_at))]
    pub(crate) fn name(&mut self, alloc: Global) -> Result<Name, CodecFault>
        ensures { Reads (λ x. x) result self.new (name_at self.old) }
    {
        let at = self.at;
        let len = self.u16()?;
        if len > 1024 {
            return Err(CodecFault::BadLength { at });
        }
        let bytes = self.field(len as usize)?;
        name_from(alloc, bytes)
    }

    #[tactic(auto, unfolding(crate::specs::Reading::blob_at))]
    pub(crate) fn blob(&mut self, alloc: Global) -> Result<Blob, CodecFault>
        ensures { Reads (λ x. x) result self.new (blob_at self.old) }
    {
        let len = self.u32()?;
        let bytes = self.field(len as usize)?;
        Ok(Blob::new(alloc, bytes)?)
    }
}

// The name of these bytes.
fn name_from(alloc: Global, bytes: &[u8]) -> Result<Name, CodecFault>
    requires { length bytes.now ≤ 1024 }
    ensures { (rest : Rest) → Reads (λ x. x) result rest (Ok (bytes.now, rest)) }
{
    match Name::new(alloc, bytes) {
        Ok(name) => Ok(name),
        // So few bytes are refused for want of memory alone.
        Err(_) => Err(CodecFault::Memory),
    }
}
