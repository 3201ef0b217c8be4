//! A stream of bytes that is put into pages, one piece after another. Nothing here takes memory.
ghost use Rattle.std.specs.Prelude.{◌≡◌, ◌+◌, ◌*◌, ◌≤◌, ◌<◌, ◌++◌, [], length, vec_capacity, vec_len};
ghost use Rattle.s38_codec.specs.Codec.{byte};
ghost use Rattle.s38_codec.specs.Formats.{u16 as half, u32 as word, u64 as long};
ghost use Rattle.s38_image.specs.Pages.{needed, stream_parts};
ghost use Rattle.s38_image_writer.specs.Writing.{Adds};

use crate::pages::page_of;
use arrayvec::ArrayVec;
use s38_base::Change;
use s38_codec::{u16_bytes, u32_bytes, u64_bytes};
use std::marker::Model;

/// How many bytes a page has.
const PAGE: usize = 512;

/// The pages of a stream, after other parts, in room that was taken before. Contracts see it as the place of the
/// stream, the bytes that were put so far, and for how many further bytes there is room.
#[derive(Drop)]
pub struct PageWriter {
    number: u64,
    first: u32,
    part: u32,
    room: u32,
    start: usize,
    parts: Vec<Change>,
    tail: ArrayVec<u8, 512>,
}

impl Model for PageWriter {
    ghost use Rattle.std.specs.Prelude.{◌++◌, drop, take, vec_capacity};
    ghost use Rattle.s38_image.specs.Pages.{stream};
    ghost use Rattle.s38_image_writer.specs.Writing.{IsCut, Written};

    ghost Value = { Written };

    ghost view = { λ w. record {
      place = record { before = take w.start w.parts.items; number = w.number; first = w.first; capacity = vec_capacity w.parts };
      bytes = stream (drop w.start w.parts.items) ++ w.tail.items;
      room = w.room;
    } };

    ghost invariant = { λ w. IsCut w.number w.first w.part w.room w.start (vec_capacity w.parts) w.parts.items w.tail.items };
}

/// Adds bytes to a page that has room for them.
fn extend(page: &mut ArrayVec<u8, 512>, bytes: &[u8])
    requires { length page.old.items + length bytes.now ≤ 512 }
    ensures { page.new.items ≡ page.old.items ++ bytes.now }
{
    page.try_extend_from_slice(bytes).unwrap();
}

impl PageWriter {
    /// A stream of so many bytes at most, from a part of an object on, after parts that have room for its pages.
    pub fn new(parts: Vec<Change>, number: u64, first: u32, len: u32) -> PageWriter
        requires room { vec_len parts + needed len ≤ vec_capacity parts }
        requires near { 512 * first + len ≤ 33554432 }
        ensures { result ≡ record {
          place = record { before = parts.items; number = number; first = first; capacity = vec_capacity parts };
          bytes = [];
          room = len;
        } }
    {
        PageWriter {
            number,
            first,
            part: first,
            room: len,
            start: parts.len(),
            parts,
            tail: ArrayVec::new(),
        }
    }

    /// Adds as many bytes as the page takes, and answers the others.
    fn put_front<'a>(&mut self, bytes: &'a [u8]) -> &'a [u8]
        requires { length bytes.now ≤ self.old.room }
        ensures bytes { self.new.bytes ++ result.now ≡ self.old.bytes ++ bytes.now }
        ensures room { self.new.room + length bytes.now ≡ self.old.room + length result.now }
        ensures place { self.new.place ≡ self.old.place }
        ensures fewer { 0 < length bytes.now → length result.now < length bytes.now }
    {
        let free = PAGE - self.tail.len();
        if bytes.len() < free {
            extend(&mut self.tail, bytes);
            self.room -= bytes.len() as u32;
            return &[];
        }
        let (front, rest) = bytes.split_at(free);
        extend(&mut self.tail, front);
        let page = page_of(self.number, self.part, self.tail.as_slice(), 0);
        self.parts.push_reserved(page);
        self.tail.clear();
        self.part += 1;
        self.room -= free as u32;
        rest
    }

    /// Adds bytes, for which there is room.
    pub fn put(&mut self, bytes: &[u8])
        requires { length bytes.now ≤ self.old.room }
        ensures { Adds self.old self.new (length bytes.now) bytes.now }
    {
        let mut rest = bytes;
        while !rest.is_empty() {
            rest = self.put_front(rest);
        }
    }

    /// Adds a byte.
    pub fn put_byte(&mut self, number: u8)
        requires { 1 ≤ self.old.room }
        ensures { Adds self.old self.new 1 (byte.print number) }
    {
        self.put(&[number]);
    }

    /// Adds the two bytes of a number.
    pub fn put_u16(&mut self, number: u16)
        requires { 2 ≤ self.old.room }
        ensures { Adds self.old self.new 2 (half.print number) }
    {
        self.put(&u16_bytes(number));
    }

    /// Adds the four bytes of a number.
    pub fn put_u32(&mut self, number: u32)
        requires { 4 ≤ self.old.room }
        ensures { Adds self.old self.new 4 (word.print number) }
    {
        self.put(&u32_bytes(number));
    }

    /// Adds the eight bytes of a number.
    pub fn put_u64(&mut self, number: u64)
        requires { 8 ≤ self.old.room }
        ensures { Adds self.old self.new 8 (long.print number) }
    {
        self.put(&u64_bytes(number));
    }

    /// Adds the two lowest bytes of a count.
    pub fn put_short_count(&mut self, count: usize)
        requires { 2 ≤ self.old.room }
        ensures { Adds self.old self.new 2 (half.print count) }
    {
        self.put(&[(count / 256 % 256) as u8, (count % 256) as u8]);
    }

    /// Adds the four lowest bytes of a count.
    pub fn put_count(&mut self, count: usize)
        requires { 4 ≤ self.old.room }
        ensures { Adds self.old self.new 4 (word.print count) }
    {
        self.put(&[
            (count / 16_777_216 % 256) as u8,
            (count / 65_536 % 256) as u8,
            (count / 256 % 256) as u8,
            (count % 256) as u8,
        ]);
    }

    /// The parts, with those of the stream. The last page is filled with zeros, and no page has tags.
    pub fn finish(self) -> Vec<Change>
        ensures parts { result.items ≡ self.place.before ++ stream_parts self.place.number self.place.first self.bytes [] }
        ensures capacity { vec_capacity result ≡ self.place.capacity }
    {
        let PageWriter {
            number,
            part,
            mut parts,
            tail,
            ..
        } = self;
        if !tail.is_empty() {
            parts.push_reserved(page_of(number, part, tail.as_slice(), 0));
        }
        parts
    }
}
