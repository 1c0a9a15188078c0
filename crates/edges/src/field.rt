// Big-endian fields: every byte of a buffer after the store at place 1, and the field read back.
use crate::say;
use fields::field::{half, long, put_half, put_long, put_word, word};
use std::io;

fn show(rt: &impl Print, b: &[u8], back: u64) -> io::Result<()> {
    say::bytes(rt, b)?;
    say::number(rt, back)
}

pub(crate) fn store_half(rt: &impl Print, value: u32) -> io::Result<()> {
    let mut b = [0xeeu8; 4];
    put_half(&mut b, 1, value);
    show(rt, &b, half(&b, 1) as u64)
}

pub(crate) fn store_word(rt: &impl Print, value: u32) -> io::Result<()> {
    let mut b = [0xeeu8; 6];
    put_word(&mut b, 1, value);
    show(rt, &b, word(&b, 1) as u64)
}

pub(crate) fn store_long(rt: &impl Print, value: u64) -> io::Result<()> {
    let mut b = [0xeeu8; 10];
    put_long(&mut b, 1, value);
    show(rt, &b, long(&b, 1))
}
