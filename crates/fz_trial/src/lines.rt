//! The lines that write a file, each at its end or over a part of it.
use crate::amiss::Amiss;
use crate::shelf::Shelf;
use crate::words::{first_word, number, numbers};
use std::alloc::Global;

/// The bytes of a card.
const CARD_LEN: usize = 80;

/// The bytes of a block.
const BLOCK_LEN: usize = 2880;

/// The most bytes to which a line sets the length of a file.
const MOST: u32 = 1 << 30;

/// The file that is written.
#[derive(Drop)]
pub(crate) struct Page {
    alloc: Global,
    bytes: Vec<u8>,
}

impl Page {
    /// A file of no bytes.
    pub(crate) fn new(alloc: Global) -> Page {
        Page {
            alloc,
            bytes: Vec::new(alloc),
        }
    }

    /// Its bytes.
    pub(crate) fn into_bytes(self) -> Vec<u8> {
        self.bytes
    }

    /// Does what a line says, so many times if it says how many.
    pub(crate) fn write(&mut self, shelf: &Shelf, line: &str) -> Result<(), Amiss> {
        let (head, rest) = first_word(line);
        if head != "times" {
            return self.write_once(shelf, head, rest);
        }
        let (count, line) = first_word(rest);
        let count = number(count)?;
        let (head, rest) = first_word(line);
        for _ in 0..count {
            self.write_once(shelf, head, rest)?;
        }
        Ok(())
    }

    // Does what a line says.
    fn write_once(&mut self, shelf: &Shelf, head: &str, rest: &str) -> Result<(), Amiss> {
        match head {
            "card" => self.put_card(rest),
            "end" => self.put_end(),
            "fill" => self.fill_block(0),
            "copy" => self.put(shelf.file(rest)?),
            "length" => self.set_length(rest),
            "recard" => self.put_card_over(rest),
            _ => self.write_numbers(head, rest),
        }
    }

    // Does what a line says that has numbers only.
    fn write_numbers(&mut self, head: &str, rest: &str) -> Result<(), Amiss> {
        let numbers = numbers(self.alloc, rest)?;
        match head {
            "numbers" => self.put_numbers(&numbers),
            "bytes" => self.put_bytes(&numbers),
            "put" => self.put_over(&numbers),
            _ => Err(Amiss::NotUnderstood),
        }
    }

    // Puts bytes at the end.
    fn put(&mut self, bytes: &[u8]) -> Result<(), Amiss> {
        match self.bytes.extend_from_slice(bytes) {
            Ok(()) => Ok(()),
            Err(_) => Err(Amiss::NoMemory),
        }
    }

    // Gives the file this length, with such bytes at the end if it was shorter.
    fn resize(&mut self, len: usize, with: u8) -> Result<(), Amiss> {
        match self.bytes.resize(len, with) {
            Ok(()) => Ok(()),
            Err(_) => Err(Amiss::NoMemory),
        }
    }

    // Puts a card of this text, with blanks after it.
    fn put_card(&mut self, text: &str) -> Result<(), Amiss> {
        self.put(&card(text)?)
    }

    // Puts the card END, and blanks to the end of the block.
    fn put_end(&mut self) -> Result<(), Amiss> {
        self.put_card("END")?;
        self.fill_block(b' ')
    }

    // Fills the last block.
    fn fill_block(&mut self, with: u8) -> Result<(), Amiss> {
        let len = self.bytes.len();
        let over = len % BLOCK_LEN;
        if over == 0 {
            return Ok(());
        }
        self.resize(len.saturating_add(BLOCK_LEN - over), with)
    }

    // Puts numbers of 32 bits, big-endian.
    fn put_numbers(&mut self, numbers: &[u32]) -> Result<(), Amiss> {
        for number in numbers {
            self.put(&number.to_be_bytes())?;
        }
        Ok(())
    }

    // Puts bytes.
    fn put_bytes(&mut self, numbers: &[u32]) -> Result<(), Amiss> {
        for number in numbers {
            self.put(&[byte(*number)?])?;
        }
        Ok(())
    }

    // Cuts the file to so many bytes, or puts zeros up to them.
    fn set_length(&mut self, rest: &str) -> Result<(), Amiss> {
        let len = number(rest)?;
        if len > MOST {
            return Err(Amiss::NotUnderstood);
        }
        self.resize(len as usize, 0)
    }

    // Puts bytes over those from a place on, which is the first number.
    fn put_over(&mut self, numbers: &[u32]) -> Result<(), Amiss> {
        let Some((at, rest)) = numbers.split_first() else {
            return Err(Amiss::NotUnderstood);
        };
        for (i, number) in rest.iter().enumerate() {
            self.set((*at as usize).saturating_add(i), byte(*number)?)?;
        }
        Ok(())
    }

    // Puts a card of this text over the bytes from a place on.
    fn put_card_over(&mut self, rest: &str) -> Result<(), Amiss> {
        let (at, text) = first_word(rest);
        let at = number(at)? as usize;
        for (i, byte) in card(text)?.iter().enumerate() {
            self.set(at.saturating_add(i), *byte)?;
        }
        Ok(())
    }

    // Sets a byte that is there.
    fn set(&mut self, at: usize, byte: u8) -> Result<(), Amiss> {
        if at >= self.bytes.len() {
            return Err(Amiss::NotUnderstood);
        }
        self.bytes[at] = byte;
        Ok(())
    }
}

// A card of this text, with blanks after it.
fn card(text: &str) -> Result<[u8; CARD_LEN], Amiss> {
    let mut card = [b' '; CARD_LEN];
    let text = text.as_bytes();
    if text.len() > CARD_LEN {
        return Err(Amiss::NotUnderstood);
    }
    card[..text.len()].copy_from_slice(text);
    Ok(card)
}

// A number as a byte.
fn byte(number: u32) -> Result<u8, Amiss> {
    if number > 255 {
        return Err(Amiss::NotUnderstood);
    }
    Ok(number as u8)
}
