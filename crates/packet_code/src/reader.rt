//! Bytes read from the front.
ghost use Rattle.std.specs.Prelude.{◌≡◌, ◌↔◌, ℕ, List, [], length, IfOk, IfErr, IsTrue};
ghost use Rattle.std.specs.Borrow.{Bor};
ghost use Rattle.packet_code.specs.declared.stop.Stop.TheVariants.{Form};
ghost use Rattle.packet_code.specs.Reading.{byte, front, sized, u64_number, u32_number, u16_number};
ghost use Rattle.packet_code.specs.Readers.{Reads, ReadsAs};

use crate::stop::Stop;
use std::marker::Model;

/// The bytes that are left. After a call that stops nothing more is read.
#[derive(Drop)]
pub struct Reader<'a> {
    left: &'a [u8],
}

impl<'a> Model for Reader<'a> {
    ghost use Rattle.std.specs.Prelude.{ℕ, List};

    ghost Value = { List ℕ };

    ghost view = { λ r. r.left.now };
}

impl<'a> Reader<'a> {
    /// A reader of these bytes.
    pub fn of(left: &'a [u8]) -> Reader<'a>
        ensures { result ≡ left.now }
    {
        Reader { left }
    }

    /// The first byte.
    #[tactic(auto, unfolding(crate::specs::Reading::byte))]
    pub fn byte(&mut self) -> Result<u8, Stop>
        ensures read { Reads byte result self.old self.new }
        ensures form { IfErr result (λ stop. stop ≡ Form) }
    {
        let Some((first, rest)) = self.left.split_first() else {
            return Err(Stop::Form);
        };
        self.left = rest;
        Ok(*first)
    }

    /// The first so many bytes.
    #[tactic(auto, unfolding(crate::specs::Reading::front))]
    pub fn front(&mut self, count: usize) -> Result<&'a [u8], Stop>
        ensures read { ReadsAs (λ (front : Bor (List ℕ)). front.now) (front count) result self.old self.new }
        ensures length { IfOk result (λ front. length front.now ≡ count) }
        ensures form { IfErr result (λ stop. stop ≡ Form) }
    {
        if count > self.left.len() {
            return Err(Stop::Form);
        }
        let (front, rest) = self.left.split_at(count);
        self.left = rest;
        Ok(front)
    }

    /// A length, and so many bytes.
    pub fn sized(&mut self) -> Result<&'a [u8], Stop>
        ensures read { ReadsAs (λ (front : Bor (List ℕ)). front.now) sized result self.old self.new }
        ensures form { IfErr result (λ stop. stop ≡ Form) }
    {
        let length = self.byte()?;
        self.front(length as usize)
    }

    /// A number of eight bytes.
    pub fn u64_number(&mut self) -> Result<u64, Stop>
        ensures read { Reads u64_number result self.old self.new }
        ensures form { IfErr result (λ stop. stop ≡ Form) }
    {
        let mut bytes = [0; 8];
        bytes.copy_from_slice(self.front(8)?);
        Ok(u64::from_be_bytes(bytes))
    }

    /// A number of four bytes.
    pub fn u32_number(&mut self) -> Result<u32, Stop>
        ensures { Reads u32_number result self.old self.new }
    {
        let mut bytes = [0; 4];
        bytes.copy_from_slice(self.front(4)?);
        Ok(u32::from_be_bytes(bytes))
    }

    /// A number of two bytes.
    pub fn u16_number(&mut self) -> Result<u16, Stop>
        ensures { Reads u16_number result self.old self.new }
    {
        let mut bytes = [0; 2];
        bytes.copy_from_slice(self.front(2)?);
        Ok(u16::from_be_bytes(bytes))
    }

    /// Whether nothing is left.
    pub fn is_done(&self) -> bool
        ensures { IsTrue result ↔ (self.now ≡ []) }
    {
        self.left.is_empty()
    }
}
