// The desk's program: whether a pack is in force at the clock of a node. Its arguments are the names of a sheet and of an image, and a
// pack number in decimal. It reads, asks and writes, and nothing else: what it prints about a question is made by line::show.
#![tactic(auto)]

mod file;
mod line;

ghost use Rattle.std.specs.Prelude.{◌≤◌, IfOk, length};
ghost use Rattle.pack.specs.File.{Within};

use file::read_file;
use line::{LINE_ROOM, show};
use node::image::MOST_IMAGE;
use packs::sheet::LONGEST;
use std::env::{Env, FillError};
use std::io;
use std::rt::Files;
use text::decimal::read_decimal;

// The places of the arguments; the program's own name stands before them.
const SHEET: usize = 1;

const IMAGE: usize = 2;

const NUMBER: usize = 3;

const ARGUMENTS: usize = 4;

// Room for any argument: with pages of 4 KiB Linux hands over none that is longer. One that is would count as empty.
const ARGUMENT_ROOM: usize = 131072;

// One byte more than the longest sheet, so that a longer one is noticed, and refused by its length.
const SHEET_ROOM: usize = LONGEST + 1;

// Whether an argument stands at this place.
fn is_given(rt: &impl Env, place: usize) -> bool {
    !matches!(rt.arg(place, &mut [0u8; 1]), Err(FillError::NotPresent))
}

// An argument, in room that is lent for it: one that is not there or too long counts as empty.
fn argument<'a>(rt: &impl Env, place: usize, room: &'a mut [u8]) -> &'a [u8]
    ensures { length result.now ≤ length room.old }
{
    let size = rt.arg(place, room).unwrap_or(0);
    &room[..size]
}

// The number argument.
fn asked_number(rt: &impl Env) -> Option<u32> {
    let mut room = [0u8; ARGUMENT_ROOM];
    read_decimal(argument(rt, NUMBER, &mut room))
}

// Reads the file that an argument names, and says so where it cannot.
fn read_named<'a, R: Env + Files + Print>(
    rt: &R,
    place: usize,
    bytes: &'a mut [u8],
) -> io::Result<Option<&'a [u8]>>
    ensures { IfOk result (λ contents. Within contents (length bytes.old)) }
{
    let mut room = [0u8; ARGUMENT_ROOM];
    let name = argument(rt, place, &mut room);
    let contents = read_file(rt, name, bytes);
    if contents.is_none() {
        rt.write_all(b"cannot read ")?;
        rt.write_all(name)?;
        rt.write_all(b"\n")?;
    }
    Ok(contents)
}

// Reads both files, the sheet first, asks, and prints the answer. Of an image no more is read than the longest has: its size stands in
// it, bytes behind that are not looked at, and a stated size above the longest is refused whatever follows.
fn answer<R: Env + Files + Print>(rt: &R, pack: u32) -> io::Result<()> {
    let mut sheet_room = [0u8; SHEET_ROOM];
    let Some(sheet) = read_named(rt, SHEET, &mut sheet_room)? else {
        return Ok(());
    };
    let mut image_room = [0u8; MOST_IMAGE];
    let Some(image) = read_named(rt, IMAGE, &mut image_room)? else {
        return Ok(());
    };
    let mut line = [0u8; LINE_ROOM];
    let size = show(sheet, pack, image, &mut line);
    rt.write_all(&line[..size])
}

fn usage(rt: &impl Eprint) -> io::Result<()> {
    eprintln!(rt; "usage: bin/pack SHEET IMAGE NUMBER (from 0 to 4294967295)")
}

fn main(rt: HostRuntime) -> io::Result<()> {
    if !is_given(&rt, NUMBER) || is_given(&rt, ARGUMENTS) {
        return usage(&rt);
    }
    match asked_number(&rt) {
        Some(pack) => answer(&rt, pack),
        None => usage(&rt),
    }
}
